//! Answers scripts of edits and looks, each over the model of two files: the cases of `data/`.
#![tactic(auto)]

mod asked;
mod edits;
mod looks;
mod names;
mod problems;
mod readers;
mod rows;
mod scripts;
mod shown;
mod texts;
mod values;

use crate::scripts::push_bytes;
use cases_files::{file_in, model_in};
use std::alloc::{AllocError, Global};
use std::process::ExitCode;
use wb_base::Text;
use wb_console::{command_words, finish};
use wb_model::Model;
use wb_outer::{Bytes, FileShelf, StdoutSink, SystemFiles};

fn main(rt: HostRuntime) -> ExitCode {
    finish(&mut StdoutSink::new(&rt), answer(&rt))
}

/// What is printed for the words: the files of a metamodel, a model and a script, and so on. None where one of them is not of its form.
fn answer(rt: &HostRuntime) -> Result<Option<Text>, AllocError> {
    let alloc = rt.alloc();
    let mut shelf = FileShelf::new(rt);
    let mut shown = String::new(alloc);
    let words = command_words(rt)?;
    if push_cases(alloc, &mut shelf, &mut shown, words.as_slice())? {
        return Ok(Some(Text::from_string(shown)));
    }
    Ok(None)
}

fn push_cases(
    alloc: Global,
    shelf: &mut FileShelf<SystemFiles>,
    shown: &mut String,
    words: &[Bytes],
) -> Result<bool, AllocError> {
    for files in words.chunks(3) {
        if !push_case(alloc, shelf, shown, files)? {
            return Ok(false);
        }
    }
    Ok(true)
}

/// Puts the answers to a script last; false where a file is not of its form.
fn push_case(
    alloc: Global,
    shelf: &mut FileShelf<SystemFiles>,
    shown: &mut String,
    files: &[Bytes],
) -> Result<bool, AllocError> {
    let [metamodel, model, script] = files else {
        return Ok(false);
    };
    match model_in(alloc, shelf, metamodel.as_slice(), model.as_slice())? {
        Some(mut model) => push_file(alloc, shelf, shown, &mut model, script.as_slice()),
        None => Ok(false),
    }
}

fn push_file(
    alloc: Global,
    shelf: &mut FileShelf<SystemFiles>,
    shown: &mut String,
    model: &mut Model,
    script: &[u8],
) -> Result<bool, AllocError> {
    match file_in(alloc, shelf, script)? {
        Some(bytes) => push_bytes(alloc, shown, model, bytes.as_slice()),
        None => Ok(false),
    }
}
