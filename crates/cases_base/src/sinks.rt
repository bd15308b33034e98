//! Sinks in memory.
use crate::shown::{as_text, line, wrote};
use std::alloc::{AllocError, Global};
use wb_outer::{MemorySink, Sink, SureSink};

/// Pieces that are written in turn, and the answers.
pub fn push_written<S: Sink>(
    shown: &mut String,
    sink: &mut S,
    pieces: &[&str],
) -> Result<(), AllocError> {
    for piece in pieces {
        let answer = sink.write(piece.as_bytes());
        line(shown, *piece, wrote(answer))?;
    }
    Ok(())
}

pub fn push(alloc: Global, shown: &mut String) -> Result<(), AllocError> {
    let mut sink = MemorySink::new(alloc, vec![in alloc; 1]?)?;
    push_written(shown, &mut sink, &["ab", "c", "", "d"])?;
    line(shown, "sent", as_text(sink.sent()))?;
    push_written(shown, &mut SureSink::new(), &["dropped"])
}
