//! Cases of requests and replies. It prints what it found.
#![tactic(auto)]

mod replies;
mod talks;

use std::alloc::{AllocError, Global};
use std::process::ExitCode;
use wb_base::Text;
use wb_console::{command_words, finish};
use wb_http::Held;
use wb_outer::{FileShelf, Shelf, StdoutSink, Taken};

fn main(rt: HostRuntime) -> ExitCode {
    finish(&mut StdoutSink::new(&rt), answer(&rt))
}

/// All that was found. The one word names a file of connections, between which stands `%`.
fn answer(rt: &HostRuntime) -> Result<Option<Text>, AllocError> {
    let alloc = rt.alloc();
    let words = command_words(rt)?;
    let [name] = words.as_slice() else {
        return Ok(None);
    };
    match FileShelf::new(rt).take(alloc, name.as_slice())? {
        Taken::Bytes(bytes) => Ok(Some(found(alloc, bytes.as_slice())?)),
        _ => Ok(None),
    }
}

fn found(alloc: Global, connections: &[u8]) -> Result<Text, AllocError> {
    let mut shown = String::new(alloc);
    let mut held = Held::new(alloc)?;
    for connection in connections.split(|byte| *byte == b'%') {
        talks::push(alloc, &mut shown, &mut held, connection)?;
    }
    replies::push(alloc, &mut shown)?;
    Ok(Text::from_string(shown))
}
