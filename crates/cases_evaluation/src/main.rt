//! Prints the value and the reads of each expression of a file: the cases of `data/`, and a program for `bench/`.
#![tactic(auto)]

mod cases;
mod served;
mod shown;

use crate::cases::push_cases;
use cases_files::{file_in, model_in};
use std::alloc::{AllocError, Global};
use std::process::ExitCode;
use wb_base::Text;
use wb_console::{command_words, finish};
use wb_model::Model;
use wb_outer::{Bytes, FileShelf, Shelf, StdoutSink};

fn main(rt: HostRuntime) -> ExitCode {
    finish(&mut StdoutSink::new(&rt), answer(&rt))
}

/// What is printed for the words: threes of the files of a metamodel, a model and expressions. None where one of them is not of its form.
fn answer(rt: &HostRuntime) -> Result<Option<Text>, AllocError> {
    let words = command_words(rt)?;
    let mut shown = String::new(rt.alloc());
    if !push_all(rt, &mut shown, words.as_slice())? {
        return Ok(None);
    }
    Ok(Some(Text::from_string(shown)))
}

fn push_all(rt: &HostRuntime, shown: &mut String, words: &[Bytes]) -> Result<bool, AllocError> {
    let alloc = rt.alloc();
    for files in words.chunks(3) {
        let [metamodel, model, expressions] = files else {
            return Ok(false);
        };
        let mut shelf = FileShelf::new(rt);
        if !push_files(alloc, shown, &mut shelf, metamodel, model, expressions)? {
            return Ok(false);
        }
    }
    Ok(true)
}

fn push_files<H: Shelf>(
    alloc: Global,
    shown: &mut String,
    shelf: &mut H,
    metamodel: &Bytes,
    model: &Bytes,
    expressions: &Bytes,
) -> Result<bool, AllocError> {
    match model_in(alloc, shelf, metamodel.as_slice(), model.as_slice())? {
        Some(model) => push_file(alloc, shown, shelf, &model, expressions),
        None => Ok(false),
    }
}

fn push_file<H: Shelf>(
    alloc: Global,
    shown: &mut String,
    shelf: &mut H,
    model: &Model,
    expressions: &Bytes,
) -> Result<bool, AllocError> {
    match file_in(alloc, shelf, expressions.as_slice())? {
        Some(bytes) => push_bytes(alloc, shown, model, bytes.as_slice()),
        None => Ok(false),
    }
}

fn push_bytes(
    alloc: Global,
    shown: &mut String,
    model: &Model,
    bytes: &[u8],
) -> Result<bool, AllocError> {
    match std::str::from_utf8(bytes) {
        Ok(text) => {
            push_cases(alloc, shown, model, text)?;
            Ok(true)
        }
        Err(_) => Ok(false),
    }
}
