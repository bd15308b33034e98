ghost use Rattle.wb_program.specs.Taking.{taken, used};
ghost use Rattle.wb_program.specs.Steps.{Went, Reaches};
ghost use Rattle.std.specs.Prelude.{Some};

use crate::answer::{Ending, cannot_read, too_large};
use std::alloc::Global;
use wb_outer::{Bytes, Shelf, Taken};

/// The bytes of a file, or the answer where the shelf does not give them.
pub fn take_file<H: Shelf>(alloc: Global, shelf: &mut H, name: &[u8]) -> Result<Bytes, Ending>
    ensures { Went result (taken name.now) (H.told shelf.old) (H.told shelf.new) }
{
    let taken = shelf.take(alloc, name)?;
    use_taken(alloc, taken, name)
}

/// What a run makes of what the shelf gives.
fn use_taken(alloc: Global, taken: Taken, name: &[u8]) -> Result<Bytes, Ending>
    ensures { Reaches result (Some (used name.now taken)) }
{
    match taken {
        Taken::Bytes(bytes) => Ok(bytes),
        Taken::TooBig => Err(Ending::Answer(too_large(alloc, name)?)),
        Taken::Failed => Err(Ending::Answer(cannot_read(alloc, name)?)),
    }
}
