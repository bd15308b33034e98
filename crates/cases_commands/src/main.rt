//! Reads the bodies of a file, one a line, as commands, and prints what each asks for.
#![tactic(auto)]

mod actions;
mod arguments;
mod parts;

use crate::actions::push_action;
use std::alloc::{AllocError, Global};
use std::process::ExitCode;
use wb_base::Text;
use wb_commands::{BodyRefusal, read_command};
use wb_console::{command_words, finish};
use wb_diagram::Command;
use wb_outer::{FileShelf, Shelf, StdoutSink, Taken};

fn main(rt: HostRuntime) -> ExitCode {
    finish(&mut StdoutSink::new(&rt), answer(&rt))
}

/// What is printed. The one word names the file.
fn answer(rt: &HostRuntime) -> Result<Option<Text>, AllocError> {
    let words = command_words(rt)?;
    let [name] = words.as_slice() else {
        return Ok(None);
    };
    match FileShelf::new(rt).take(rt.alloc(), name.as_slice())? {
        Taken::Bytes(bytes) => Ok(Some(told(rt.alloc(), bytes.as_slice())?)),
        Taken::TooBig | Taken::Failed => Ok(None),
    }
}

/// A line for each body.
fn told(alloc: Global, bodies: &[u8]) -> Result<Text, AllocError> {
    let mut shown = String::new(alloc);
    for body in bodies.split(|byte| *byte == b'\n') {
        push_body(alloc, &mut shown, body)?;
        shown.push_str("\n")?;
    }
    Ok(Text::from_string(shown))
}

fn push_body(alloc: Global, shown: &mut String, body: &[u8]) -> Result<(), AllocError> {
    match read_command(alloc, body) {
        Ok(command) => push_command(shown, &command),
        Err(BodyRefusal::BadBody) => shown.push_str("bad body"),
        Err(BodyRefusal::NoMemory) => Err(AllocError),
    }
}

fn push_command(shown: &mut String, command: &Command) -> Result<(), AllocError> {
    write!(shown, "{} ", command.revision)?;
    push_action(shown, &command.action)
}
