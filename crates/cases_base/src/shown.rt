use std::alloc::AllocError;
use wb_outer::{Taken, Wrote};

/// A case and what was found, as a line.
pub fn line(shown: &mut String, case: &str, found: &str) -> Result<(), AllocError> {
    shown.push_str(case)?;
    shown.push_str(": ")?;
    shown.push_str(found)?;
    shown.push_str("\n")
}

/// The bytes as a text.
pub fn as_text(bytes: &[u8]) -> &str {
    std::str::from_utf8(bytes).unwrap_or("no text")
}

pub fn yes_or_no(holds: bool) -> &'static str {
    if holds { "yes" } else { "no" }
}

pub fn spelled(taken: &Taken) -> &str {
    match taken {
        Taken::Bytes(bytes) => as_text(bytes.as_slice()),
        Taken::TooBig => "too big",
        Taken::Failed => "failed",
    }
}

pub fn wrote(wrote: Wrote) -> &'static str {
    match wrote {
        Wrote::Done => "done",
        Wrote::Failed => "failed",
    }
}
