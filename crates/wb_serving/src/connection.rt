//! One connection: turn after turn, up to its end.
ghost use Rattle.std.specs.Prelude.{◌≡◌, Some};
ghost use Rattle.wb_outer.specs.Faults.{Rose};
ghost use Rattle.wb_outer.specs.declared.door.Next.{Next};
ghost use Rattle.wb_serving.specs.Connections.{IsAtHand, IsServed};
ghost use Rattle.wb_serving.specs.Machines.{Keeps};

use crate::ends::End;
use crate::machine::Machine;
use crate::turn::take_turn;
use std::alloc::Global;
use wb_http::Held;
use wb_outer::Door;

// A connection has at most so many turns.
const TURNS: usize = 10_000;

/// Serves the connection that was just taken, up to its end.
pub(crate) fn serve_connection<D: Door, M: Machine>(
    alloc: Global,
    door: &mut D,
    machine: &mut M,
    held: &mut Held,
) -> End
    requires { (D.told door.old).last ≡ Some Next.Line }
    ensures served { IsServed M.law (M.told machine.old) (M.told machine.new) (D.told door.old) (D.told door.new) result }
    ensures keeps { Keeps M.law (M.told machine.old) (M.told machine.new) }
    ensures at_hand { IsAtHand (D.told door.old) (D.told door.new) }
    ensures fault { result ≡ End.Fault → Rose (D.told door.old).faults (D.told door.new).faults }
{
    held.clear();
    'turns: for turn in 0..TURNS {
        let is_last = turn + 1 == TURNS;
        if let Some(end) = take_turn(alloc, door, machine, held, is_last) {
            return end;
        }
    }
    End::Spent
}
