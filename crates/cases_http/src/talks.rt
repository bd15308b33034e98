//! What is read of a connection, in pieces of several sizes.
ghost use Rattle.std.specs.Prelude.{◌≡◌, ◌<◌, Some};
ghost use Rattle.wb_outer.specs.declared.door.Next.{Next};

use std::alloc::{AllocError, Global};
use wb_http::{
    FixedReply, Held, Request, RequestEnd, Route, RouteRefusal, find_route, read_request,
};
use wb_outer::{Bytes, Door, Next, SureDoor};

/// So many bytes stand in each piece.
const SIZES: [usize; 3] = [1, 7, 1000];

fn as_text(bytes: &[u8]) -> &str {
    std::str::from_utf8(bytes).unwrap_or("no text")
}

fn push_route(alloc: Global, shown: &mut String, request: &Request) -> Result<(), AllocError> {
    match find_route(alloc, request.method.as_slice(), request.target.as_slice()) {
        Ok(Route::Diagram) => shown.push_str("diagram\n"),
        Ok(Route::Element(key)) => write!(shown, "element {}\n", key.as_str()),
        Ok(Route::Model) => shown.push_str("model\n"),
        Ok(Route::Command) => shown.push_str("command\n"),
        Ok(Route::Stop) => shown.push_str("stop\n"),
        Err(RouteRefusal::NotFound) => shown.push_str("not found\n"),
        Err(RouteRefusal::NotAllowed(method)) => write!(shown, "only {}\n", method.as_str()),
        Err(RouteRefusal::NoMemory) => Err(AllocError),
    }
}

fn push_request(alloc: Global, shown: &mut String, request: &Request) -> Result<(), AllocError> {
    let body = as_text(request.body.as_slice());
    write!(
        shown,
        "{} {} {} [{}] ",
        request.method.as_str(),
        as_text(request.target.as_slice()),
        request.close,
        body
    )?;
    push_route(alloc, shown, request)
}

fn push_end(shown: &mut String, end: RequestEnd) -> Result<(), AllocError> {
    match end {
        RequestEnd::Bad(refusal) => {
            let reply = FixedReply::Http(refusal);
            write!(shown, "{} {}\n", reply.status(), reply.text())
        }
        RequestEnd::Ended => shown.push_str("ended\n"),
        RequestEnd::Failed => shown.push_str("failed\n"),
        RequestEnd::NoMemory => Err(AllocError),
    }
}

/// One request of the connection at hand. Does another follow?
fn push_turn<D: Door>(
    alloc: Global,
    shown: &mut String,
    door: &mut D,
    held: &mut Held,
) -> Result<bool, AllocError>
    requires { (D.told door.old).last ≡ Some Next.Line }
    ensures { (D.told door.new).last ≡ (D.told door.old).last }
{
    match read_request(alloc, door, held) {
        Ok(request) => {
            push_request(alloc, shown, &request)?;
            Ok(!request.close)
        }
        Err(end) => {
            push_end(shown, end)?;
            Ok(false)
        }
    }
}

fn push_turns<D: Door>(
    alloc: Global,
    shown: &mut String,
    door: &mut D,
    held: &mut Held,
) -> Result<(), AllocError>
    requires { (D.told door.old).last ≡ Some Next.Line }
{
    held.clear();
    'turns: for _ in 0..20u8 {
        if !push_turn(alloc, shown, door, held)? {
            return Ok(());
        }
    }
    Ok(())
}

fn pieces(alloc: Global, bytes: &[u8], size: usize) -> Result<Vec<Bytes>, AllocError>
    requires { 0 < size }
{
    let mut pieces = Vec::new(alloc);
    for piece in bytes.chunks(size) {
        pieces.push(Bytes::from_slice(alloc, piece)?)?;
    }
    Ok(pieces)
}

/// What is read of a connection in pieces of this size.
fn talk(alloc: Global, held: &mut Held, bytes: &[u8], size: usize) -> Result<String, AllocError>
    requires { 0 < size }
{
    let mut lines = Vec::new(alloc);
    lines.push(pieces(alloc, bytes, size)?)?;
    let mut door = SureDoor::new(alloc, lines);
    let mut shown = String::new(alloc);
    if door.next() == Next::Line {
        push_turns(alloc, &mut shown, &mut door, held)?;
    }
    Ok(shown)
}

/// What is read of a connection in one piece, and whether it is the same in others.
pub fn push(
    alloc: Global,
    shown: &mut String,
    held: &mut Held,
    bytes: &[u8],
) -> Result<(), AllocError> {
    let whole = talk(alloc, held, bytes, 1_000_000)?;
    shown.push_str(whole.as_str())?;
    for size in SIZES {
        if size > 1 || bytes.len() < 2000 {
            let cut = talk(alloc, held, bytes, size)?;
            let told = if cut.as_str() == whole.as_str() {
                "same\n"
            } else {
                "other\n"
            };
            shown.push_str(told)?;
        }
    }
    Ok(())
}
