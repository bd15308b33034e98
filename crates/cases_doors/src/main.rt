//! Cases of doors and keepers: in memory, over sockets that go by a script, and over TCP. It prints what it found.
#![tactic(auto)]

mod keepers;
mod memory;
mod scripts;
mod shown;
mod sockets;
mod tcp;

use std::alloc::AllocError;
use std::process::ExitCode;
use wb_base::Text;
use wb_console::finish;
use wb_outer::StdoutSink;

fn main(rt: HostRuntime) -> ExitCode {
    finish(&mut StdoutSink::new(&rt), answer(&rt))
}

/// All that was found.
fn answer(rt: &HostRuntime) -> Result<Option<Text>, AllocError> {
    let mut shown = String::new(rt.alloc());
    memory::push(rt.alloc(), &mut shown)?;
    sockets::push(rt.alloc(), &mut shown)?;
    keepers::push(rt.alloc(), &mut shown)?;
    tcp::push(rt, &mut shown)?;
    Ok(Some(Text::from_string(shown)))
}
