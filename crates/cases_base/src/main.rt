//! Cases of the crates at the bottom: lists and texts, JSON, the outside and the end of a program. It prints what it found.
#![tactic(auto)]

mod doors;
mod files;
mod forms;
mod json;
mod keepers;
mod outputs;
mod shelves;
mod shown;
mod sinks;
mod texts;

use std::alloc::AllocError;
use std::process::ExitCode;
use wb_base::Text;
use wb_console::{command_words, finish};
use wb_outer::StdoutSink;

fn main(rt: HostRuntime) -> ExitCode {
    finish(&mut StdoutSink::new(&rt), answer(&rt))
}

/// All that was found. The one word names a file of the system.
fn answer(rt: &HostRuntime) -> Result<Option<Text>, AllocError> {
    let words = command_words(rt)?;
    let [name] = words.as_slice() else {
        return Ok(None);
    };
    let mut shown = String::new(rt.alloc());
    texts::push(rt.alloc(), &mut shown)?;
    json::push(rt.alloc(), &mut shown)?;
    outside(rt, &mut shown, name.as_slice())?;
    Ok(Some(Text::from_string(shown)))
}

fn outside(rt: &HostRuntime, shown: &mut String, name: &[u8]) -> Result<(), AllocError> {
    shelves::push(rt.alloc(), shown)?;
    files::push(rt, shown, name)?;
    sinks::push(rt.alloc(), shown)?;
    outputs::push(rt.alloc(), shown)?;
    doors::push(rt.alloc(), shown)?;
    keepers::push(rt.alloc(), shown)
}
