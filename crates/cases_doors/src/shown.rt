//! Words for what doors answer.
use cases_rows::as_text;
use wb_outer::{Got, Next, Wrote};

pub fn next_word(next: Next) -> &'static str {
    match next {
        Next::Line => "line",
        Next::Closed => "closed",
        Next::Failed => "failed",
    }
}

pub fn wrote_word(wrote: Wrote) -> &'static str {
    match wrote {
        Wrote::Done => "done",
        Wrote::Failed => "failed",
    }
}

/// What was read into a room of two bytes.
pub fn got_word(got: Got, room: &[u8; 2]) -> &str {
    match got {
        Got::Bytes(1) => as_text(&room[..1]),
        Got::Bytes(_) => as_text(room.as_slice()),
        Got::End => "end",
        Got::Failed => "failed",
    }
}
