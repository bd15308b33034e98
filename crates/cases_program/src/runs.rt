//! One run of the top call, and what it shows: the names that were asked, the status and what the sink got.
use md5::{Digest, Md5};
use std::alloc::{AllocError, Global};
use wb_json::Wrong;
use wb_outer::{Bytes, MemoryShelf, MemorySink, Steps, SureDoor, SureKeeper};
use wb_program::{Status, workbench};

/// The label of the count of evaluations.
struct Evaluations;

/// How many bytes of the sink are printed as they are.
const LONG: usize = 16384;

/// Runs on these words, and puts what the run shows last.
pub fn push_run(
    alloc: Global,
    shown: &mut String,
    words: &[Bytes],
    shelf: &mut MemoryShelf,
    sink: &mut MemorySink,
) -> Result<(), Wrong> {
    let status = run(alloc, words, shelf, sink);
    push_asked(alloc, shown, shelf.asked())?;
    write!(shown, "status {}\n", status as u8)?;
    push_sink(alloc, shown, sink.sent())
}

fn run(alloc: Global, words: &[Bytes], shelf: &mut MemoryShelf, sink: &mut MemorySink) -> Status {
    let mut door = SureDoor::new(alloc, Vec::new(alloc));
    let mut keeper = SureKeeper::new(Vec::new(alloc));
    let mut steps: Steps<Evaluations> = Steps::new();
    workbench(
        alloc,
        words,
        shelf,
        &mut door,
        &mut keeper,
        sink,
        &mut steps,
    )
}

fn push_asked(alloc: Global, shown: &mut String, names: &[Bytes]) -> Result<(), Wrong> {
    shown.push_str("asked")?;
    for name in names {
        shown.push(' ')?;
        push_text(alloc, shown, name.as_slice())?;
    }
    shown.push('\n')?;
    Ok(())
}

/// The number of the bytes, and the bytes themselves, or of many their MD5.
fn push_sink(alloc: Global, shown: &mut String, bytes: &[u8]) -> Result<(), Wrong> {
    if bytes.len() > LONG {
        return Ok(push_digest(shown, bytes)?);
    }
    write!(shown, "sink {}\n", bytes.len())?;
    push_text(alloc, shown, bytes)?;
    shown.push('\n')?;
    Ok(())
}

fn push_digest(shown: &mut String, bytes: &[u8]) -> Result<(), AllocError> {
    let digest = u128::from_be_bytes(Md5::digest(bytes));
    write!(shown, "sink {} md5 {digest:032x}\n", bytes.len())
}

fn push_text(alloc: Global, shown: &mut String, bytes: &[u8]) -> Result<(), Wrong> {
    match std::str::from_utf8(bytes) {
        Ok(text) => Ok(shown.push_str(text)?),
        Err(_) => Err(Wrong::here(alloc)),
    }
}
