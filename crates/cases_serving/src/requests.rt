//! Requests by a letter each.
ghost use Rattle.std.specs.Prelude.{◌<◌};

use std::alloc::{AllocError, Global};
use wb_outer::Bytes;

fn request_of(letter: u8) -> &'static str {
    match letter {
        b'd' => "GET /diagram HTTP/1.1\r\nHost: h\r\n\r\n",
        b'e' => "GET /element/0.2 HTTP/1.1\r\nHost: h\r\n\r\n",
        b'm' => "GET /model HTTP/1.1\r\nHost: h\r\n\r\n",
        b'+' => "POST /command HTTP/1.1\r\nHost: h\r\nContent-Length: 1\r\n\r\n+",
        // The body is a whole request.
        b'i' => {
            "POST /command HTTP/1.1\r\nHost: h\r\nContent-Length: 34\r\n\r\nGET /model HTTP/1.1\r\nHost: hhh\r\n\r\n"
        }
        b'n' => "GET /nowhere HTTP/1.1\r\nHost: h\r\n\r\n",
        b'p' => "POST /diagram HTTP/1.1\r\nHost: h\r\nContent-Length: 0\r\n\r\n",
        b'c' => "GET /diagram HTTP/1.1\r\nHost: h\r\nConnection: close\r\n\r\n",
        b'o' => "GET /diagram HTTP/1.0\r\n\r\n",
        b's' => "POST /stop HTTP/1.1\r\nHost: h\r\nContent-Length: 0\r\n\r\n",
        // The length of its body lacks, or its version.
        b'l' => "POST /command HTTP/1.1\r\nHost: h\r\n\r\n",
        b'b' => "GET /diagram\r\n\r\n",
        // Less than a request.
        _ => "GET /dia",
    }
}

/// The bytes of these requests, so many times.
fn bytes_of(alloc: Global, letters: &str, times: u32) -> Result<Vec<u8>, AllocError> {
    let mut bytes = Vec::new(alloc);
    for _time in 0..times {
        for letter in letters.as_bytes() {
            bytes.extend_from_slice(request_of(*letter).as_bytes())?;
        }
    }
    Ok(bytes)
}

/// A connection of these requests, so many times, in pieces of this size.
pub fn line_of(
    alloc: Global,
    letters: &str,
    times: u32,
    size: usize,
) -> Result<Vec<Bytes>, AllocError>
    requires { 0 < size }
{
    let bytes = bytes_of(alloc, letters, times)?;
    let mut pieces = Vec::new(alloc);
    for piece in bytes.as_slice().chunks(size) {
        pieces.push(Bytes::from_slice(alloc, piece)?)?;
    }
    Ok(pieces)
}
