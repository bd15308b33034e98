//! Replies, whole.
use std::alloc::{AllocError, Global};
use wb_http::{FixedReply, keeper_reply, no_memory_reply, write_response};

/// Each status that has a phrase here.
const STATUSES: [u16; 12] = [200, 400, 404, 405, 409, 411, 413, 422, 431, 501, 503, 507];

/// Those that are no refusal of a head or a length.
const FIXED: [FixedReply; 7] = [
    FixedReply::NotFound,
    FixedReply::MethodNotAllowed,
    FixedReply::BadBody,
    FixedReply::UnknownElement,
    FixedReply::Keeper,
    FixedReply::NoMemory,
    FixedReply::Stopped,
];

fn push_bytes(shown: &mut String, bytes: &[u8]) -> Result<(), AllocError> {
    match std::str::from_utf8(bytes) {
        Ok(text) => write!(shown, "{text}\n"),
        Err(_) => shown.push_str("no text\n"),
    }
}

fn push_reply(
    alloc: Global,
    shown: &mut String,
    status: u16,
    allow: Option<&[u8]>,
    close: bool,
    body: &str,
) -> Result<(), AllocError> {
    if status < 100 || status > 999 {
        return Ok(());
    }
    let reply = write_response(alloc, status, allow, close, body.as_bytes())?;
    push_bytes(shown, reply.as_slice())
}

pub fn push(alloc: Global, shown: &mut String) -> Result<(), AllocError> {
    for status in STATUSES {
        push_reply(alloc, shown, status, None, status == 400, "{}")?;
    }
    push_reply(alloc, shown, 405, Some(b"POST".as_slice()), true, "")?;
    for reply in FIXED {
        push_reply(alloc, shown, reply.status(), None, false, reply.text())?;
    }
    for close in [false, true] {
        push_bytes(shown, no_memory_reply(close).as_bytes())?;
        push_bytes(shown, keeper_reply(close).as_bytes())?;
    }
    Ok(())
}
