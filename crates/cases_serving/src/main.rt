//! Cases of serving: connections of a door in memory, answered by a machine that counts. It prints what was written.
#![tactic(auto)]

mod requests;
mod runs;
mod tally;

use std::alloc::AllocError;
use std::process::ExitCode;
use wb_base::Text;
use wb_console::finish;
use wb_outer::StdoutSink;

fn main(rt: HostRuntime) -> ExitCode {
    finish(&mut StdoutSink::new(&rt), answer(&rt))
}

/// All that was written.
fn answer(rt: &HostRuntime) -> Result<Option<Text>, AllocError> {
    let mut shown = String::new(rt.alloc());
    runs::push(rt.alloc(), &mut shown)?;
    Ok(Some(Text::from_string(shown)))
}
