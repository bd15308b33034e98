//! Lists, texts, bytes and names.
use crate::shown::{as_text, line, yes_or_no};
use std::alloc::{AllocError, Global};
use wb_base::{Duplicate, List, Text, is_name, is_text};
use wb_outer::{Bytes, Steps};

const NAMES: [&str; 9] = [
    "_",
    "_1",
    "Book_2",
    "a234567890123456789012345678901234567890123456789012345678901234",
    "a2345678901234567890123456789012345678901234567890123456789012345",
    "",
    "2a",
    "a-b",
    "é",
];

const TEXTS: [(&str, &[u8]); 2] = [("caf c3 a9", b"caf\xc3\xa9"), ("caf c3", b"caf\xc3")];

pub fn push(alloc: Global, shown: &mut String) -> Result<(), AllocError> {
    for name in NAMES {
        line(shown, name, yes_or_no(is_name(name)))?;
    }
    for (case, bytes) in TEXTS {
        line(shown, case, yes_or_no(is_text(bytes)))?;
    }
    push_lists(alloc, shown)?;
    push_bytes(alloc, shown)
}

fn texts(alloc: Global, names: &[&str]) -> Result<List<Text>, AllocError> {
    let mut texts = List::new(alloc);
    for name in names {
        texts.push(Text::from_slice(alloc, name.as_bytes())?)?;
    }
    Ok(texts)
}

fn push_lists(alloc: Global, shown: &mut String) -> Result<(), AllocError> {
    let names = texts(alloc, &["Dune", "Emma"])?;
    let copies = names.copy(alloc)?;
    line(shown, "copied", yes_or_no(copies == names))?;
    compare(alloc, shown, &names)
}

fn compare(alloc: Global, shown: &mut String, names: &List<Text>) -> Result<(), AllocError> {
    let others = texts(alloc, &["Emma"])?;
    line(
        shown,
        "below",
        yes_or_no(names.as_slice() < others.as_slice()),
    )
}

fn push_bytes(alloc: Global, shown: &mut String) -> Result<(), AllocError> {
    let own = Bytes::from_slice(alloc, b"own")?;
    let copy = Bytes::from_vec(own.copy(alloc)?.into_vec());
    line(shown, "bytes copied", as_text(copy.as_slice()))?;
    line(shown, "steps take no room", yes_or_no(has_no_room()))
}

fn has_no_room() -> bool {
    let mut steps: Steps<u8> = Steps::new();
    steps.tick();
    size_of::<Steps<u8>>() <= 2
}
