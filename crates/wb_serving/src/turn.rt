//! One turn of a connection: what is read is answered.
ghost use Rattle.std.specs.Prelude.{◌≡◌, ◌⊎◌, Some, None, false};
ghost use Rattle.wb_outer.specs.Faults.{Rose};
ghost use Rattle.wb_outer.specs.declared.door.Next.{Next};
ghost use Rattle.wb_serving.specs.Connections.{IsAtHand};
ghost use Rattle.wb_serving.specs.Machines.{Keeps};
ghost use Rattle.wb_serving.specs.Replies.{text_in, closes_with, stops_with};
ghost use Rattle.wb_serving.specs.Responses.{Refuses, Responds, Sends, TakesTurn};
ghost use Rattle.wb_serving.specs.Turns.{ending};

use crate::answering::{answer_request, refuse};
use crate::ends::End;
use crate::machine::Machine;
use crate::replies::Reply;
use std::alloc::Global;
use wb_http::{Held, Request, RequestEnd, read_request};
use wb_outer::{Door, Wrote};

// What is done when something was read.
#[derive(Drop)]
enum Response {
    /// A reply is written.
    Say(Reply),
    /// The connection ends.
    Quit(End),
}

// What is done where no request was read.
fn respond_without(alloc: Global, end: RequestEnd) -> Response
    ensures { Refuses end result }
{
    match end {
        RequestEnd::Bad(refusal) => Response::Say(refuse(alloc, refusal)),
        RequestEnd::NoMemory => Response::Say(Reply::NoMemory(true)),
        RequestEnd::Ended => Response::Quit(End::Input),
        RequestEnd::Failed => Response::Quit(End::Fault),
    }
}

// Answers what was read.
fn respond<M: Machine>(
    alloc: Global,
    machine: &mut M,
    heard: Result<Request, RequestEnd>,
    is_last: bool,
) -> Response
    ensures responds { Responds M.law heard (M.told machine.old) (M.told machine.new) is_last result }
    ensures keeps { Keeps M.law (M.told machine.old) (M.told machine.new) }
{
    match heard {
        Ok(request) => Response::Say(answer_request(alloc, machine, &request, is_last)),
        Err(end) => respond_without(alloc, end),
    }
}

// Writes a reply, and says how the connection ended, if it did.
fn send<D: Door>(door: &mut D, reply: &Reply, is_last: bool) -> Option<End>
    requires { (D.told door.old).last ≡ Some Next.Line }
    ensures sends { Sends (text_in reply.now) (ending (stops_with reply.now) is_last (closes_with reply.now)) result (D.told door.old) (D.told door.new) }
    ensures at_hand { IsAtHand (D.told door.old) (D.told door.new) }
    ensures goes_on { result ≡ None → is_last ≡ false }
    ensures fault { result ≡ Some End.Fault → Rose (D.told door.old).faults (D.told door.new).faults }
{
    match door.write(reply.text()) {
        Wrote::Done => reply.end(is_last),
        Wrote::Failed => Some(End::Fault),
    }
}

/// One turn of a connection: reads a request and answers it. Gives how the connection ended, if it did.
pub(crate) fn take_turn<D: Door, M: Machine>(
    alloc: Global,
    door: &mut D,
    machine: &mut M,
    held: &mut Held,
    is_last: bool,
) -> Option<End>
    requires { (D.told door.old).last ≡ Some Next.Line }
    ensures turn { TakesTurn M.law (M.told machine.old) (M.told machine.new) (D.told door.old) (D.told door.new) held.old held.new is_last result }
    ensures keeps { Keeps M.law (M.told machine.old) (M.told machine.new) }
    ensures at_hand { IsAtHand (D.told door.old) (D.told door.new) }
    // The last turn ends the connection.
    ensures goes_on { result ≡ None → is_last ≡ false }
    ensures fault { result ≡ Some End.Fault → Rose (D.told door.old).faults (D.told door.new).faults }
{
    let heard = read_request(alloc, door, held);
    match respond(alloc, machine, heard, is_last) {
        Response::Say(reply) => send(door, &reply, is_last),
        Response::Quit(end) => Some(end),
    }
}
