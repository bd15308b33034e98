//! Cases of the durable keeper, on real files in the folder that it runs in. It prints what it found.
#![tactic(auto)]

use cases_rows::{heading, push_commit, push_load};
use std::alloc::AllocError;
use std::process::ExitCode;
use wb_base::Text;
use wb_console::finish;
use wb_keep_sqlite::SqliteKeeper;
use wb_outer::{Bytes, StdoutSink};

fn main(rt: HostRuntime) -> ExitCode {
    finish(&mut StdoutSink::new(&rt), answer(&rt))
}

/// All that was found.
fn answer(rt: &HostRuntime) -> Result<Option<Text>, AllocError> {
    let mut shown = String::new(rt.alloc());
    push_new(rt, &mut shown)?;
    push_again(rt, &mut shown)?;
    push_locked(rt, &mut shown)?;
    push_wrong(rt, &mut shown)?;
    Ok(Some(Text::from_string(shown)))
}

fn keeper(rt: &HostRuntime, path: &[u8]) -> Result<SqliteKeeper, AllocError> {
    Ok(SqliteKeeper::new(rt, Bytes::from_slice(rt.alloc(), path)?))
}

const FILE: &[u8] = b"kept.db";

/// A file that is not there yet: nothing is loaded, and then what was committed.
fn push_new(rt: &HostRuntime, shown: &mut String) -> Result<(), AllocError> {
    heading(shown, "a new file")?;
    let mut keeper = keeper(rt, FILE)?;
    push_load(rt.alloc(), shown, &mut keeper)?;
    let changes = [("b", "1"), ("a", "2"), ("c", "3")];
    push_commit(rt.alloc(), shown, &mut keeper, &changes)?;
    push_load(rt.alloc(), shown, &mut keeper)
}

/// The same file, opened once more: changes are made in their order.
fn push_again(rt: &HostRuntime, shown: &mut String) -> Result<(), AllocError> {
    heading(shown, "the same file, opened again")?;
    let mut keeper = keeper(rt, FILE)?;
    push_load(rt.alloc(), shown, &mut keeper)?;
    let changes = [("a", "4"), ("b", ""), ("ab", "5"), ("d", "6"), ("d", "")];
    push_commit(rt.alloc(), shown, &mut keeper, &changes)?;
    push_commit(rt.alloc(), shown, &mut keeper, &[("no such key", "")])?;
    push_commit(rt.alloc(), shown, &mut keeper, &[])?;
    push_load(rt.alloc(), shown, &mut keeper)
}

/// A file that another keeper has open.
fn push_locked(rt: &HostRuntime, shown: &mut String) -> Result<(), AllocError> {
    heading(shown, "a file that another keeper has open")?;
    let mut first = keeper(rt, FILE)?;
    push_load(rt.alloc(), shown, &mut first)?;
    let mut second = keeper(rt, FILE)?;
    push_load(rt.alloc(), shown, &mut second)?;
    push_commit(rt.alloc(), shown, &mut second, &[("a", "7")])?;
    push_load(rt.alloc(), shown, &mut first)
}

/// A file that is no database, a folder that is not there, and a path that is no text.
fn push_wrong(rt: &HostRuntime, shown: &mut String) -> Result<(), AllocError> {
    for (case, path) in [
        ("a file that is no database", b"wrong.db".as_slice()),
        ("a folder that is not there", b"none/kept.db".as_slice()),
        ("a path that is no text", b"\xff".as_slice()),
    ] {
        heading(shown, case)?;
        let mut keeper = keeper(rt, path)?;
        push_load(rt.alloc(), shown, &mut keeper)?;
        push_commit(rt.alloc(), shown, &mut keeper, &[("a", "1")])?;
    }
    Ok(())
}
