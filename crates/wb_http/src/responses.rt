//! The bytes of a reply.
ghost use Rattle.std.specs.Prelude.{◌≡◌, ◌++◌, IfOk, OnOk, [], length, string_bytes, codes, decimal, option_map};
ghost use Rattle.http.specs.StatusCode.{IsStatusCode};
ghost use Rattle.wb_http.specs.Replies.{allow_line, close_line, first_lines, line, phrase, response};

use http::StatusCode;
use std::alloc::{AllocError, Global};
use wb_outer::Bytes;

// The phrase of a status.
fn phrase_of(status: u16) -> &'static str
    requires { IsStatusCode status }
    ensures { result.now ≡ phrase status }
{
    match StatusCode::from_u16(status) {
        Ok(code) => code.canonical_reason().unwrap_or(""),
        Err(_) => "",
    }
}

fn push_status(head: &mut String, status: u16) -> Result<(), AllocError>
    requires { IsStatusCode status }
    ensures { OnOk result (string_bytes head.new ≡ string_bytes head.old ++ line (codes "HTTP/1.1 " ++ decimal status ++ codes " " ++ phrase status)) }
{
    let phrase = phrase_of(status);
    write!(head, "HTTP/1.1 {status} {phrase}\r\n")
}

fn push_length(head: &mut String, count: usize) -> Result<(), AllocError>
    ensures { OnOk result (string_bytes head.new ≡ string_bytes head.old ++ line (codes "Content-Length: " ++ decimal count)) }
{
    write!(head, "Content-Length: {count}\r\n")
}

fn push_first_lines(head: &mut String, status: u16, count: usize) -> Result<(), AllocError>
    requires { IsStatusCode status }
    ensures { OnOk result (string_bytes head.new ≡ string_bytes head.old ++ first_lines status count) }
{
    push_status(head, status)?;
    head.push_str("Content-Type: application/json\r\n")?;
    push_length(head, count)
}

fn start_head(alloc: Global, status: u16, count: usize) -> Result<Vec<u8>, AllocError>
    requires { IsStatusCode status }
    ensures { IfOk result (λ head. head.items ≡ first_lines status count) }
{
    let mut head = String::new(alloc);
    push_first_lines(&mut head, status, count)?;
    Ok(head.into_bytes())
}

fn push_method(head: &mut Vec<u8>, method: &[u8]) -> Result<(), AllocError>
    ensures { OnOk result (head.new.items ≡ head.old.items ++ line (codes "Allow: " ++ method.now)) }
{
    head.extend_from_slice(b"Allow: ")?;
    head.extend_from_slice(method)?;
    head.extend_from_slice(b"\r\n")
}

fn push_allow(head: &mut Vec<u8>, allow: Option<&[u8]>) -> Result<(), AllocError>
    ensures { OnOk result (head.new.items ≡ head.old.items ++ allow_line (option_map (λ method. method.now) allow.entry)) }
{
    match allow {
        None => Ok(()),
        Some(method) => push_method(head, method),
    }
}

fn push_close(head: &mut Vec<u8>, close: bool) -> Result<(), AllocError>
    ensures { OnOk result (head.new.items ≡ head.old.items ++ close_line close) }
{
    if close {
        head.extend_from_slice(b"Connection: close\r\n")
    } else {
        Ok(())
    }
}

fn push_end(head: &mut Vec<u8>, body: &[u8]) -> Result<(), AllocError>
    ensures { OnOk result (head.new.items ≡ head.old.items ++ line [] ++ body.now) }
{
    head.extend_from_slice(b"\r\n")?;
    head.extend_from_slice(body)
}

fn push_rest(
    head: &mut Vec<u8>,
    allow: Option<&[u8]>,
    close: bool,
    body: &[u8],
) -> Result<(), AllocError>
    ensures { OnOk result (head.new.items ≡ head.old.items ++ allow_line (option_map (λ method. method.now) allow.entry) ++ close_line close ++ line [] ++ body.now) }
{
    push_allow(head, allow)?;
    push_close(head, close)?;
    push_end(head, body)
}

/// The bytes of a reply. `allow` is the method that a target takes where it is not allowed another.
pub fn write_response(
    alloc: Global,
    status: u16,
    allow: Option<&[u8]>,
    close: bool,
    body: &[u8],
) -> Result<Bytes, AllocError>
    requires { IsStatusCode status }
    ensures { IfOk result (λ bytes. bytes ≡ response status (option_map (λ method. method.now) allow.entry) close body.now) }
{
    let mut reply = start_head(alloc, status, body.len())?;
    push_rest(&mut reply, allow, close, body)?;
    Ok(Bytes::from_vec(reply))
}
