//! Runs: what was written on each connection, and what was kept.
use crate::requests::line_of;
use crate::tally::Tally;
use cases_rows::{heading, line, push_rows};
use std::alloc::{AllocError, Global};
use wb_doors::MemoryDoor;
use wb_keepers::MemoryKeeper;
use wb_serving::{Ended, serve};

/// Connections, each a letter for a request; how often each says it, and the size of its pieces; the calls of the door
/// and of the keeper that fail; and how many connections are served.
#[derive(Clone, Copy)]
struct Run {
    lines: &'static [&'static str],
    times: u32,
    size: usize,
    door: &'static [u64],
    keeper: &'static [u64],
    limit: u32,
}

/// A run of one try, in which no call fails.
const PLAIN: Run = Run {
    lines: &[],
    times: 1,
    size: 100_000,
    door: &[],
    keeper: &[],
    limit: 100,
};

fn ended_word(ended: Ended) -> &'static str {
    match ended {
        Ended::Closed => "closed",
        Ended::Stopped => "stopped",
        Ended::Fault => "fault",
        Ended::Spent => "spent",
    }
}

/// The bytes with `~` for each end of a line; of many the last ones, behind their number.
fn push_sent(shown: &mut String, sent: &[u8]) -> Result<(), AllocError> {
    let rest = if sent.len() > 2000 {
        write!(shown, "{} bytes, at last ", sent.len())?;
        &sent[sent.len() - 200..]
    } else {
        sent
    };
    for byte in rest {
        match *byte {
            b'\r' => {}
            b'\n' => shown.push('~')?,
            other => shown.push(char::from(other))?,
        }
    }
    shown.push('\n')
}

fn door_of(alloc: Global, run: Run) -> Result<MemoryDoor, AllocError> {
    let mut lines = Vec::new(alloc);
    for letters in run.lines {
        lines.push(line_of(alloc, *letters, run.times, run.size.max(1))?)?;
    }
    MemoryDoor::new(alloc, lines, Vec::from_slice(alloc, run.door)?)
}

fn tally_of(alloc: Global, run: Run) -> Result<Tally, AllocError> {
    let keeper = MemoryKeeper::new(alloc, Vec::new(alloc), Vec::from_slice(alloc, run.keeper)?)?;
    Ok(Tally { total: 0, keeper })
}

// How a run ended, what was written on each connection, and what was kept.
fn shown_of(alloc: Global, run: Run) -> Result<String, AllocError> {
    let mut door = door_of(alloc, run)?;
    let mut tally = tally_of(alloc, run)?;
    let mut shown = String::new(alloc);
    let ended = serve(alloc, &mut door, &mut tally, run.limit)?;
    line(&mut shown, "ended", ended_word(ended))?;
    for number in 0..door.line_count() {
        push_sent(&mut shown, door.sent(number))?;
    }
    push_rows(&mut shown, tally.keeper.rows())?;
    Ok(shown)
}

fn push_run(alloc: Global, shown: &mut String, name: &str, run: Run) -> Result<(), AllocError> {
    heading(shown, name)?;
    shown.push_str(shown_of(alloc, run)?.as_str())
}

/// The same run in one piece, in bytes, and in pieces of 7 and of 50.
fn push_cut(alloc: Global, shown: &mut String, name: &str, run: Run) -> Result<(), AllocError> {
    heading(shown, name)?;
    let whole = shown_of(alloc, run)?;
    shown.push_str(whole.as_str())?;
    for size in [1, 7, 50] {
        let cut = shown_of(alloc, Run { size, ..run })?;
        let told = if cut.as_str() == whole.as_str() {
            "same\n"
        } else {
            "other\n"
        };
        shown.push_str(told)?;
    }
    Ok(())
}

pub fn push(alloc: Global, shown: &mut String) -> Result<(), AllocError> {
    push_cut(
        alloc,
        shown,
        "each request",
        Run {
            lines: &["demn+pidh", "+cd", "o+", "b+", "l+", "i"],
            ..PLAIN
        },
    )?;
    push_run(
        alloc,
        shown,
        "a count that is full",
        Run {
            lines: &["++++", "++++", "+++d"],
            ..PLAIN
        },
    )?;
    push_run(
        alloc,
        shown,
        "a stop",
        Run {
            lines: &["+", "ds+", "d"],
            ..PLAIN
        },
    )?;
    push_run(
        alloc,
        shown,
        "no connection more is asked for",
        Run {
            lines: &["+", "+", "+"],
            limit: 2,
            ..PLAIN
        },
    )?;
    push_failing(alloc, shown)?;
    push_run(
        alloc,
        shown,
        "one request too many",
        Run {
            lines: &["m", "h"],
            times: 10_001,
            ..PLAIN
        },
    )
}

fn push_failing(alloc: Global, shown: &mut String) -> Result<(), AllocError> {
    let two = Run {
        lines: &["+d", "d"],
        ..PLAIN
    };
    push_run(
        alloc,
        shown,
        "the first call for a connection fails",
        Run { door: &[0], ..two },
    )?;
    push_run(
        alloc,
        shown,
        "the first read fails",
        Run { door: &[1], ..two },
    )?;
    push_run(
        alloc,
        shown,
        "the reply to an accepted command is not written",
        Run { door: &[2], ..two },
    )?;
    push_run(
        alloc,
        shown,
        "the second read fails",
        Run { door: &[4], ..two },
    )?;
    push_run(
        alloc,
        shown,
        "the reply to a stop is not written",
        Run {
            lines: &["s", "d"],
            door: &[2],
            ..PLAIN
        },
    )?;
    push_run(
        alloc,
        shown,
        "the first commit fails",
        Run {
            lines: &["++d"],
            keeper: &[0],
            ..PLAIN
        },
    )
}
