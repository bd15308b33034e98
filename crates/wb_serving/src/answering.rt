//! The reply to a request, and to what is none.
ghost use Rattle.std.specs.Prelude.{◌≡◌, ◌||◌, IfOk, Ok, option_map, true};
ghost use Rattle.wb_http.specs.Replies.{response, fixed_status, fixed_text};
ghost use Rattle.wb_http.specs.declared.replies.FixedReply.TheVariants.{Http};
ghost use Rattle.wb_http.specs.declared.routes.Route.{Route};
ghost use Rattle.wb_serving.specs.Machines.{Keeps};
ghost use Rattle.wb_serving.specs.Replies.{SaysOrLacks, RefusesRoute};
ghost use Rattle.wb_serving.specs.Responses.{Replies, RepliesAt};
ghost use Rattle.wb_serving.specs.Turns.{fixed_reply};

use crate::machine::{Answer, Machine};
use crate::replies::Reply;
use std::alloc::{AllocError, Global};
use wb_http::{FixedReply, HttpRefusal, Request, Route, RouteRefusal, find_route, write_response};
use wb_outer::Bytes;

// The bytes of a reply of fixed text.
fn write_fixed(
    alloc: Global,
    reply: FixedReply,
    allow: Option<&[u8]>,
    closes: bool,
) -> Result<Bytes, AllocError>
    ensures { IfOk result (λ text. text ≡ response (fixed_status reply) (option_map (λ method. method.now) allow.entry) closes (fixed_text reply)) }
{
    write_response(
        alloc,
        reply.status(),
        allow,
        closes,
        reply.text().as_bytes(),
    )
}

// A reply of fixed text, or want of memory for it.
fn fixed(alloc: Global, reply: FixedReply, allow: Option<&[u8]>, closes: bool) -> Reply
    ensures { SaysOrLacks (response (fixed_status reply) (option_map (λ method. method.now) allow.entry) closes (fixed_text reply)) closes result }
{
    match write_fixed(alloc, reply, allow, closes) {
        Ok(text) => Reply::Made(text, closes),
        Err(_) => Reply::NoMemory(closes),
    }
}

/// The reply to bytes that are refused.
pub(crate) fn refuse(alloc: Global, refusal: HttpRefusal) -> Reply
    ensures { SaysOrLacks (fixed_reply (Http refusal) true) true result }
{
    fixed(alloc, FixedReply::Http(refusal), None, true)
}

// The reply to a request that has no route.
fn refuse_route(alloc: Global, refusal: &RouteRefusal, closes: bool) -> Reply
    ensures { RefusesRoute refusal.now closes result }
{
    match refusal {
        RouteRefusal::NotFound => fixed(alloc, FixedReply::NotFound, None, closes),
        RouteRefusal::NotAllowed(method) => {
            fixed(
                alloc,
                FixedReply::MethodNotAllowed,
                Some(method.as_slice()),
                closes,
            )
        }
        RouteRefusal::NoMemory => Reply::NoMemory(true),
    }
}

// Asks the machine.
fn ask<M: Machine>(
    alloc: Global,
    machine: &mut M,
    route: &Route,
    body: &[u8],
    closes: bool,
) -> Reply
    requires { route.now ≡ Route.Stop → ⊥ }
    ensures replies { RepliesAt M.law (M.told machine.old) (M.told machine.new) body.now closes route.now result }
    ensures keeps { Keeps M.law (M.told machine.old) (M.told machine.new) }
{
    match machine.answer(alloc, route, body, closes) {
        Answer::Made(text) => Reply::Made(text, closes),
        Answer::NoMemory => Reply::NoMemory(closes),
        Answer::Unkept => Reply::Unkept(closes),
    }
}

// Answers a request by its route.
fn answer_route<M: Machine>(
    alloc: Global,
    machine: &mut M,
    route: &Route,
    body: &[u8],
    closes: bool,
) -> Reply
    ensures replies { RepliesAt M.law (M.told machine.old) (M.told machine.new) body.now closes route.now result }
    ensures keeps { Keeps M.law (M.told machine.old) (M.told machine.new) }
{
    match route {
        Route::Stop => Reply::Stopped,
        _ => ask(alloc, machine, route, body, closes),
    }
}

// Does the connection close after the reply to a request that is none to stop?
fn closes_after(request: &Request, is_last: bool) -> bool
    ensures { result ≡ (request.now.close || is_last) }
{
    request.close || is_last
}

/// Answers a request, which may be the last one of its connection.
pub(crate) fn answer_request<M: Machine>(
    alloc: Global,
    machine: &mut M,
    request: &Request,
    is_last: bool,
) -> Reply
    ensures replies { Replies M.law (Ok request.now) (M.told machine.old) (M.told machine.new) is_last result }
    ensures keeps { Keeps M.law (M.told machine.old) (M.told machine.new) }
{
    let closes = closes_after(request, is_last);
    match find_route(alloc, request.method.as_slice(), request.target.as_slice()) {
        Ok(route) => answer_route(alloc, machine, &route, request.body.as_slice(), closes),
        Err(refusal) => refuse_route(alloc, &refusal, closes),
    }
}
