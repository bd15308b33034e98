//! Doors in memory.
use crate::scripts::Step::{Read, Write};
use crate::scripts::push_next;
use cases_rows::{as_text, heading, line};
use std::alloc::{AllocError, Global};
use wb_doors::MemoryDoor;
use wb_outer::Bytes;

fn pieces(alloc: Global, texts: &[&str]) -> Result<Vec<Bytes>, AllocError> {
    let mut pieces = Vec::new(alloc);
    for text in texts {
        pieces.push(Bytes::from_slice(alloc, text.as_bytes())?)?;
    }
    Ok(pieces)
}

/// A connection of three pieces, the second of them empty, and one without any.
fn door(alloc: Global, failing: &[u64]) -> Result<MemoryDoor, AllocError> {
    let mut lines = Vec::new(alloc);
    lines.push(pieces(alloc, &["abc", "", "d"])?)?;
    lines.push(Vec::new(alloc))?;
    MemoryDoor::new(alloc, lines, Vec::from_slice(alloc, failing)?)
}

fn push_sent(shown: &mut String, door: &MemoryDoor) -> Result<(), AllocError> {
    for number in 0..door.line_count() {
        line(shown, "sent", as_text(door.sent(number)))?;
    }
    Ok(())
}

pub fn push(alloc: Global, shown: &mut String) -> Result<(), AllocError> {
    push_sure(alloc, shown)?;
    push_failing(alloc, shown)
}

/// No call fails.
fn push_sure(alloc: Global, shown: &mut String) -> Result<(), AllocError> {
    heading(shown, "a door in memory")?;
    let mut door = door(alloc, &[])?;
    push_sent(shown, &door)?;
    push_next(
        shown,
        &mut door,
        &[Write("one, "), Read, Read, Write("two"), Read, Read, Read],
    )?;
    push_next(shown, &mut door, &[Read, Write("three")])?;
    push_next(shown, &mut door, &[])?;
    push_next(shown, &mut door, &[])?;
    push_sent(shown, &door)
}

/// The calls 0, 2, 4, 7 and 10 fail: of the first connection the read and the write that come first, and each call for
/// the next connection that comes first.
fn push_failing(alloc: Global, shown: &mut String) -> Result<(), AllocError> {
    heading(shown, "a door in memory that fails")?;
    let mut door = door(alloc, &[0, 2, 4, 7, 10])?;
    push_next(shown, &mut door, &[])?;
    push_next(
        shown,
        &mut door,
        &[Read, Read, Write("lost"), Write("kept"), Read],
    )?;
    push_next(shown, &mut door, &[])?;
    push_next(shown, &mut door, &[Read])?;
    push_next(shown, &mut door, &[])?;
    push_next(shown, &mut door, &[])?;
    push_sent(shown, &door)
}
