//! Doors in memory.
ghost use Rattle.std.specs.Prelude.{◌≡◌, Some};

use crate::shown::{as_text, line, wrote};
use std::alloc::{AllocError, Global};
use wb_outer::{Bytes, Door, Got, Next, SureDoor};

fn pieces(alloc: Global, texts: &[&str]) -> Result<Vec<Bytes>, AllocError> {
    let mut pieces = Vec::new(alloc);
    for text in texts {
        pieces.push(Bytes::from_slice(alloc, text.as_bytes())?)?;
    }
    Ok(pieces)
}

/// A door of a connection of these pieces, and one without any behind it.
fn door(alloc: Global, texts: &[&str]) -> Result<SureDoor, AllocError> {
    let mut lines = Vec::new(alloc);
    lines.push(pieces(alloc, texts)?)?;
    lines.push(Vec::new(alloc))?;
    Ok(SureDoor::new(alloc, lines))
}

fn next_word(next: Next) -> &'static str {
    match next {
        Next::Line => "line",
        Next::Closed => "closed",
        Next::Failed => "failed",
    }
}

fn got_word(got: Got, room: &[u8; 2]) -> &str {
    match got {
        Got::Bytes(1) => as_text(&room[..1]),
        Got::Bytes(_) => as_text(room.as_slice()),
        Got::End => "end",
        Got::Failed => "failed",
    }
}

/// The connection at hand is read to its end, two bytes at most at a time.
fn push_read<D: Door>(shown: &mut String, door: &mut D) -> Result<(), AllocError>
    requires { (D.told door.old).last ≡ Some Next.Line }
{
    let answer = door.write(b"dropped");
    line(shown, "written", wrote(answer))?;
    for case in ["first", "second", "third", "fourth"] {
        let mut room = [0u8; 2];
        let got = door.read(&mut room);
        line(shown, case, got_word(got, &room))?;
    }
    Ok(())
}

pub fn push(alloc: Global, shown: &mut String) -> Result<(), AllocError> {
    let mut door = door(alloc, &["abc", "", "d"])?;
    for _ in 0..4u8 {
        let next = door.next();
        line(shown, "next", next_word(next))?;
        if next == Next::Line {
            push_read(shown, &mut door)?;
        }
    }
    Ok(())
}
