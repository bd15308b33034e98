//! The workbench: a model, and a diagram of it that a viewpoint declares.
#![tactic(auto)]

use std::process::ExitCode;
use wb_console::command_words;
use wb_outer::{Bytes, FileShelf, StdoutSink, Steps, SureDoor, SureKeeper};
use wb_program::{Status, workbench};

/// The label of the count of evaluations.
struct Evaluations;

fn main(rt: HostRuntime) -> ExitCode {
    let status = match command_words(&rt) {
        Ok(words) => run_on(&rt, words.as_slice()),
        Err(_) => Status::NoMemory,
    };
    ExitCode::from(status as u8)
}

/// Runs over the files and the standard output of this process. No words ask for connections or kept rows yet.
fn run_on(rt: &HostRuntime, words: &[Bytes]) -> Status {
    let alloc = rt.alloc();
    let mut shelf = FileShelf::new(rt);
    let mut door = SureDoor::new(alloc, Vec::new(alloc));
    let mut keeper = SureKeeper::new(Vec::new(alloc));
    let mut out = StdoutSink::new(rt);
    let mut steps: Steps<Evaluations> = Steps::new();
    workbench(
        alloc,
        words,
        &mut shelf,
        &mut door,
        &mut keeper,
        &mut out,
        &mut steps,
    )
}
