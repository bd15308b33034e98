//! Cases of layouts and histories. It prints what it found.
#![tactic(auto)]

mod histories;
mod layouts;
mod shown;

use std::alloc::{AllocError, Global};
use std::process::ExitCode;
use wb_base::Text;
use wb_console::finish;
use wb_outer::StdoutSink;

fn main(rt: HostRuntime) -> ExitCode {
    finish(&mut StdoutSink::new(&rt), answer(rt.alloc()))
}

/// All that was found.
fn answer(alloc: Global) -> Result<Option<Text>, AllocError> {
    let mut shown = String::new(alloc);
    layouts::push(alloc, &mut shown)?;
    histories::push(alloc, &mut shown)?;
    Ok(Some(Text::from_string(shown)))
}
