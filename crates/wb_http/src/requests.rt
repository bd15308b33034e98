//! Requests, read from a connection.
ghost use Rattle.std.specs.Prelude.{◌≡◌, ◌≤◌, ◌<◌, ◌+◌, Some, IfOk, IfErr, IfNone, OnOk, OnErr, length, take, drop};
ghost use Rattle.wb_outer.specs.declared.door.Next.{Next};
ghost use Rattle.wb_http.specs.Requests.{head_limit, Takes, Bad, Short};
ghost use Rattle.wb_http.specs.declared.refusals.HttpRefusal.{HttpRefusal};
ghost use Rattle.wb_http.specs.declared.requests.RequestEnd.{RequestEnd};
ghost use Rattle.wb_http.specs.Ends.{head_length};
ghost use Rattle.wb_http.specs.Reading.{ReadsOne, IsExact, end_of};
ghost use Rattle.wb_http.specs.Fronts.{Fills, IsDoorEnd, IsEnd, IsSeen, HasFront, Misses, request_at, request_limit};

use crate::ends::{Mark, Progress, find_end};
use crate::heads::{Head, judge};
use crate::held::Held;
use crate::refusals::HttpRefusal;
use std::alloc::{AllocError, Global};
use wb_base::Text;
use wb_outer::{Bytes, Door};

/// A request of a connection.
pub struct Request {
    pub method: Text,
    /// As it stands in the head.
    pub target: Bytes,
    pub body: Bytes,
    /// Does the connection close after it?
    pub close: bool,
}

impl Drop for Request {
    fn drop(self) {
        let Request {
            method: _method,
            target: _target,
            body: _body,
            close: _,
        } = self;
    }
}

/// Why no request was read.
#[derive(Clone, Copy, Debug, PartialEq, Eq)]
pub enum RequestEnd {
    Bad(HttpRefusal),
    /// The connection ended in no whole request.
    Ended,
    /// The door failed.
    Failed,
    NoMemory,
}

/// A head at the front of the bytes held, and where it ends.
#[derive(Clone, Copy)]
pub(crate) struct Front {
    pub end: usize,
    pub head: Head,
}

/// Reads one request from the bytes held and the connection at hand. What stands in `held` afterwards is the rest.
pub fn read_request<D: Door>(
    alloc: Global,
    door: &mut D,
    held: &mut Held,
) -> Result<Request, RequestEnd>
    requires { (D.told door.old).last ≡ Some Next.Line }
    // Over the bytes held and those that the door gave for it.
    ensures reads { ReadsOne held.old held.new (D.told door.old) (D.told door.new) result }
    // Over the bytes held and all that are to come.
    ensures exact { IsExact held.old held.new (D.told door.old).to_come (D.told door.new).to_come result }
{
    read_one(alloc, door, held)
}

fn read_one<D: Door>(alloc: Global, door: &mut D, held: &mut Held) -> Result<Request, RequestEnd>
    requires { (D.told door.old).last ≡ Some Next.Line }
    ensures { ReadsOne held.old held.new (D.told door.old) (D.told door.new) result }
{
    match read_front(door, held) {
        Ok(front) => take_front(alloc, held, front),
        Err(end) => Err(end),
    }
}

// Takes the request at the front off the bytes held.
fn take_front(alloc: Global, held: &mut Held, front: Front) -> Result<Request, RequestEnd>
    requires front { HasFront held.old front }
    requires whole { front.end + front.head.body ≤ length held.old }
    ensures made { IfOk result (λ request. request ≡ request_at held.old front) }
    ensures rest { OnOk result (held.new ≡ drop (front.end + front.head.body) held.old) }
    ensures same { OnErr result (held.new ≡ held.old) }
    ensures no_memory { IfErr result (λ end. end ≡ RequestEnd.NoMemory) }
{
    match make_request(alloc, held.as_slice(), front) {
        Ok(request) => {
            held.give(front.end + front.head.body);
            Ok(request)
        }
        Err(_) => Err(RequestEnd::NoMemory),
    }
}

// The request that stands at the front.
fn make_request(alloc: Global, bytes: &[u8], front: Front) -> Result<Request, AllocError>
    requires front { HasFront bytes.now front }
    requires whole { front.end + front.head.body ≤ length bytes.now }
    ensures { IfOk result (λ request. request ≡ request_at bytes.now front) }
{
    let head = &bytes[..front.end];
    let method = Text::from_slice(alloc, front.head.method.of(head))?;
    let target = Bytes::from_slice(alloc, front.head.target.of(head))?;
    let body = Bytes::from_slice(alloc, &bytes[front.end..front.end + front.head.body])?;
    Ok(Request {
        method,
        target,
        body,
        close: front.head.close,
    })
}

// Reads a head and its body.
fn read_front<D: Door>(door: &mut D, held: &mut Held) -> Result<Front, RequestEnd>
    requires { (D.told door.old).last ≡ Some Next.Line }
    ensures fills { Fills held.old held.new (D.told door.old) (D.told door.new) (end_of result) }
    ensures front { IfOk result (HasFront held.new) }
    ensures whole { IfOk result (λ front. front.end + front.head.body ≤ length held.new) }
    ensures misses { IfErr result (Misses held.new) }
{
    match read_head(door, held) {
        Ok(found) => read_found(door, held, found),
        Err(end) => Err(end),
    }
}

// Reads on where a head ends, or refuses one that is too large.
fn read_found<D: Door>(
    door: &mut D,
    held: &mut Held,
    found: Option<usize>,
) -> Result<Front, RequestEnd>
    requires at_hand { (D.told door.old).last ≡ Some Next.Line }
    requires found { IsEnd held.old found }
    ensures fills { Fills held.old held.new (D.told door.old) (D.told door.new) (end_of result) }
    ensures front { IfOk result (HasFront held.new) }
    ensures whole { IfOk result (λ front. front.end + front.head.body ≤ length held.new) }
    ensures misses { IfErr result (Misses held.new) }
{
    match found {
        Some(end) => read_behind_head(door, held, end),
        None => Err(RequestEnd::Bad(HttpRefusal::HeadTooLarge)),
    }
}

// Judges a head, and reads its body.
fn read_behind_head<D: Door>(door: &mut D, held: &mut Held, end: usize) -> Result<Front, RequestEnd>
    requires at_hand { (D.told door.old).last ≡ Some Next.Line }
    requires end { head_length (take head_limit held.old) ≡ Some end }
    ensures fills { Fills held.old held.new (D.told door.old) (D.told door.new) (end_of result) }
    ensures front { IfOk result (HasFront held.new) }
    ensures whole { IfOk result (λ front. front.end + front.head.body ≤ length held.new) }
    ensures misses { IfErr result (Misses held.new) }
{
    match judge_front(held.as_slice(), end) {
        Ok(front) => read_body(door, held, front),
        Err(end) => Err(end),
    }
}

// Judges the head that ends there.
fn judge_front(bytes: &[u8], end: usize) -> Result<Front, RequestEnd>
    requires { head_length (take head_limit bytes.now) ≡ Some end }
    ensures front { IfOk result (HasFront bytes.now) }
    ensures small { IfOk result (λ front. front.end + front.head.body ≤ request_limit) }
    ensures refused { IfErr result (λ e. (refusal : HttpRefusal) × (e ≡ RequestEnd.Bad refusal) × Takes bytes.now (Bad refusal)) }
{
    match judge(&bytes[..end]) {
        Ok(head) => Ok(Front { end, head }),
        Err(refusal) => Err(RequestEnd::Bad(refusal)),
    }
}

// Reads on until the body of this head is whole.
fn read_body<D: Door>(door: &mut D, held: &mut Held, front: Front) -> Result<Front, RequestEnd>
    requires at_hand { (D.told door.old).last ≡ Some Next.Line }
    requires front { HasFront held.old front }
    requires small { front.end + front.head.body ≤ request_limit }
    ensures fills { Fills held.old held.new (D.told door.old) (D.told door.new) (end_of result) }
    ensures front { IfOk result (HasFront held.new) }
    ensures whole { IfOk result (λ front. front.end + front.head.body ≤ length held.new) }
    ensures misses { IfErr result (Misses held.new) }
{
    match read_up_to(door, held, front.end + front.head.body) {
        Ok(()) => Ok(front),
        Err(end) => Err(end),
    }
}

// Reads on until so many bytes are held.
fn read_up_to<D: Door>(door: &mut D, held: &mut Held, total: usize) -> Result<(), RequestEnd>
    requires at_hand { (D.told door.old).last ≡ Some Next.Line }
    requires small { total ≤ request_limit }
    ensures fills { Fills held.old held.new (D.told door.old) (D.told door.new) (end_of result) }
    ensures whole { OnOk result (total ≤ length held.new) }
    ensures short { OnErr result (length held.new < total) }
    ensures ends { IfErr result IsDoorEnd }
{
    'reads: while held.len() < total {
        match held.fill(door) {
            Ok(()) => {}
            Err(end) => return Err(end),
        }
    }
    Ok(())
}

// The bytes in which a head has to end.
fn in_limit(bytes: &[u8]) -> &[u8]
    ensures { result.now ≡ take head_limit bytes.now }
{
    &bytes[..bytes.len().min(16_384)]
}

// Looks on for the end of a head in the first bytes.
fn find_head(bytes: &[u8], progress: &mut Progress) -> Option<usize>
    requires { IsSeen progress.old bytes.now }
    ensures found { result ≡ head_length (take head_limit bytes.now) }
    ensures seen { IfNone result (IsSeen progress.new bytes.now) }
{
    find_end(in_limit(bytes), progress)
}

// Reads on until a head ends, and says where; `None` where too many bytes stand without the end of one.
fn read_head<D: Door>(door: &mut D, held: &mut Held) -> Result<Option<usize>, RequestEnd>
    requires { (D.told door.old).last ≡ Some Next.Line }
    ensures fills { Fills held.old held.new (D.told door.old) (D.told door.new) (end_of result) }
    ensures end { IfOk result (IsEnd held.new) }
    ensures short { OnErr result (Takes held.new Short) }
    ensures ends { IfErr result IsDoorEnd }
{
    let mut progress = Progress {
        seen: 0,
        mark: Mark::Blank,
    };
    'reads: loop {
        let end = find_head(held.as_slice(), &mut progress);
        match end {
            Some(_) => return Ok(end),
            None => {}
        }
        if held.len() >= 16_384 {
            return Ok(None);
        }
        match held.fill(door) {
            Ok(()) => {}
            Err(end) => return Err(end),
        }
    }
}
