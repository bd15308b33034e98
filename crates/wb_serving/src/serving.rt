//! All connections of a door, one after another.
ghost use Rattle.std.specs.Prelude.{◌≡◌, IfOk, OnErr};
ghost use Rattle.wb_serving.specs.Runs.{Serves};

use crate::connection::serve_connection;
use crate::ends::{End, Ended};
use crate::machine::Machine;
use std::alloc::{AllocError, Global};
use wb_http::Held;
use wb_outer::{Door, Next};

// Serves connections with this room for requests.
fn serve_with<D: Door, M: Machine>(
    alloc: Global,
    door: &mut D,
    machine: &mut M,
    held: &mut Held,
    limit: u32,
) -> Ended
    ensures { Serves M.law (M.told machine.old) (M.told machine.new) (D.told door.old) (D.told door.new) limit result }
{
    'connections: for _count in 0..limit {
        match door.next() {
            Next::Line => match serve_connection(alloc, door, machine, held) {
                End::Stop => return Ended::Stopped,
                _ => {}
            },
            Next::Closed => return Ended::Closed,
            Next::Failed => return Ended::Fault,
        }
    }
    Ended::Spent
}

/// Serves so many connections of the door, or until none is to come, one stops the program or the door gives none.
/// All room for requests is taken before the first of them.
pub fn serve<D: Door, M: Machine>(
    alloc: Global,
    door: &mut D,
    machine: &mut M,
    limit: u32,
) -> Result<Ended, AllocError>
    ensures served { IfOk result (Serves M.law (M.told machine.old) (M.told machine.new) (D.told door.old) (D.told door.new) limit) }
    // Without room for requests the door was not asked.
    ensures door { OnErr result (D.told door.new ≡ D.told door.old) }
    ensures machine { OnErr result (M.told machine.new ≡ M.told machine.old) }
{
    let mut held = Held::new(alloc)?;
    Ok(serve_with(alloc, door, machine, &mut held, limit))
}
