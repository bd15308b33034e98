//! The cases of a file, each an object of JSON: its name, its words, its files and the numbers of the calls of shelf and sink that fail.
use crate::files::file_of;
use crate::runs::push_run;
use cases_files::needed_file;
use std::alloc::Global;
use wb_base::{List, Text};
use wb_json::{Value, Wrong, list_or_empty, needed, parse_json};
use wb_outer::{Bytes, MemoryShelf, MemorySink, Shelf};

/// Puts what each case of a file shows last.
pub fn push_cases<H: Shelf>(
    alloc: Global,
    from: &mut H,
    shown: &mut String,
    name: &[u8],
) -> Result<(), Wrong> {
    let bytes = needed_file(alloc, from, name)?;
    match parse_json(alloc, bytes.as_slice())? {
        Some(cases) => push_each(alloc, from, shown, &cases),
        None => Err(Wrong::here(alloc)),
    }
}

fn push_each<H: Shelf>(
    alloc: Global,
    from: &mut H,
    shown: &mut String,
    cases: &Value,
) -> Result<(), Wrong> {
    let Some(cases) = cases.as_array() else {
        return Err(Wrong::here(alloc));
    };
    for case in cases {
        push_case(alloc, from, shown, case)?;
    }
    Ok(())
}

fn push_case<H: Shelf>(
    alloc: Global,
    from: &mut H,
    shown: &mut String,
    case: &Value,
) -> Result<(), Wrong> {
    push_name(alloc, shown, case)?;
    let mut shelf = shelf_of(alloc, from, case)?;
    run_on(alloc, shown, case, &mut shelf)
}

fn push_name(alloc: Global, shown: &mut String, case: &Value) -> Result<(), Wrong> {
    let name: Text = needed(alloc, case, "name")?;
    shown.push_str(name.as_str())?;
    shown.push('\n')?;
    Ok(())
}

fn run_on(
    alloc: Global,
    shown: &mut String,
    case: &Value,
    shelf: &mut MemoryShelf,
) -> Result<(), Wrong> {
    let words = words_of(alloc, case)?;
    let mut sink = MemorySink::new(alloc, failing(alloc, case, "sink")?)?;
    push_run(alloc, shown, words.as_slice(), shelf, &mut sink)
}

fn words_of(alloc: Global, case: &Value) -> Result<Vec<Bytes>, Wrong> {
    let texts: List<Text> = needed(alloc, case, "words")?;
    let mut words = Vec::new(alloc);
    for text in texts.as_slice() {
        words.push(Bytes::from_slice(alloc, text.as_slice())?)?;
    }
    Ok(words)
}

fn shelf_of<H: Shelf>(alloc: Global, from: &mut H, case: &Value) -> Result<MemoryShelf, Wrong> {
    let files = files_of(alloc, from, case)?;
    Ok(MemoryShelf::new(alloc, files, failing(alloc, case, "shelf")?)?)
}

fn files_of<H: Shelf>(
    alloc: Global,
    from: &mut H,
    case: &Value,
) -> Result<Vec<(Bytes, Bytes)>, Wrong> {
    let pairs: List<List<Text>> = list_or_empty(alloc, case, "files")?;
    let mut files = Vec::new(alloc);
    for pair in pairs.as_slice() {
        files.push(file_of(alloc, from, pair.as_slice())?)?;
    }
    Ok(files)
}

/// The numbers of the calls of an object that fail.
fn failing(alloc: Global, case: &Value, object: &str) -> Result<Vec<u64>, Wrong> {
    match case.get("failing") {
        Some(failing) => calls_in(alloc, failing, object),
        None => Ok(Vec::new(alloc)),
    }
}

fn calls_in(alloc: Global, failing: &Value, object: &str) -> Result<Vec<u64>, Wrong> {
    let numbers: List<u32> = list_or_empty(alloc, failing, object)?;
    let mut calls = Vec::new(alloc);
    for number in numbers.as_slice() {
        calls.push(u64::from(*number))?;
    }
    Ok(calls)
}
