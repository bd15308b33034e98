//! Calls that a door is asked to make, by a script.
ghost use Rattle.std.specs.Prelude.{◌≡◌, Some};

use crate::shown::{got_word, next_word, wrote_word};
use cases_rows::line;
use std::alloc::AllocError;
use wb_outer::{Door, Next};

/// A call on the connection at hand: two bytes at most are read, or a piece is written.
#[derive(Clone, Copy, Debug)]
pub enum Step {
    Read,
    Write(&'static str),
}

/// Makes the calls on the connection at hand, and shows each answer.
fn push_line<D: Door>(shown: &mut String, door: &mut D, steps: &[Step]) -> Result<(), AllocError>
    requires { (D.told door.old).last ≡ Some Next.Line }
{
    for step in steps {
        match step {
            Step::Read => {
                let mut room = [0u8; 2];
                let got = door.read(&mut room);
                line(shown, "read", got_word(got, &room))?;
            }
            Step::Write(piece) => line(shown, "write", wrote_word(door.write(piece.as_bytes())))?,
        }
    }
    Ok(())
}

/// Asks for the next connection, and makes the calls on it where one comes.
pub fn push_next<D: Door>(
    shown: &mut String,
    door: &mut D,
    steps: &[Step],
) -> Result<(), AllocError> {
    let next = door.next();
    line(shown, "next", next_word(next))?;
    if next == Next::Line {
        push_line(shown, door, steps)?;
    }
    Ok(())
}
