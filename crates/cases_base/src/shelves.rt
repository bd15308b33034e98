//! Shelves in memory.
use crate::shown::{as_text, line, spelled};
use std::alloc::{AllocError, Global};
use wb_outer::{Bytes, MemoryShelf, Shelf, SureShelf, Taken};

/// Names that are asked in turn, and their answers.
pub fn push_taken<S: Shelf>(
    alloc: Global,
    shown: &mut String,
    shelf: &mut S,
    names: &[&str],
) -> Result<(), AllocError> {
    for name in names {
        let taken = shelf.take(alloc, name.as_bytes())?;
        line(shown, *name, spelled(&taken))?;
    }
    Ok(())
}

fn file(alloc: Global, name: &str, text: &str) -> Result<(Bytes, Bytes), AllocError> {
    let name = Bytes::from_slice(alloc, name.as_bytes())?;
    Ok((name, Bytes::from_slice(alloc, text.as_bytes())?))
}

fn files(alloc: Global, named: &[(&str, &str)]) -> Result<Vec<(Bytes, Bytes)>, AllocError> {
    let mut files = Vec::new(alloc);
    for (name, text) in named {
        files.push(file(alloc, *name, *text)?)?;
    }
    Ok(files)
}

fn memory_shelf(alloc: Global) -> Result<MemoryShelf, AllocError> {
    let failing = vec![in alloc; 1, 4]?;
    MemoryShelf::new(
        alloc,
        files(alloc, &[("a", "one"), ("b", ""), ("a", "two")])?,
        failing,
    )
}

fn sized(alloc: Global, name: &str, size: usize) -> Result<(Bytes, Bytes), AllocError> {
    let name = Bytes::from_slice(alloc, name.as_bytes())?;
    Ok((name, Bytes::from_vec(vec![in alloc; 7; size]?)))
}

fn large_shelf(alloc: Global) -> Result<SureShelf, AllocError> {
    let mut files = Vec::new(alloc);
    for (name, size) in [("whole", 16_777_216), ("above", 16_777_217)] {
        files.push(sized(alloc, name, size)?)?;
    }
    Ok(SureShelf::new(files))
}

pub fn push(alloc: Global, shown: &mut String) -> Result<(), AllocError> {
    let mut shelf = memory_shelf(alloc)?;
    push_taken(alloc, shown, &mut shelf, &["a", "a", "b", "c", "b", "a"])?;
    for name in shelf.asked() {
        line(shown, "asked", as_text(name.as_slice()))?;
    }
    push_large(alloc, shown)
}

fn push_large(alloc: Global, shown: &mut String) -> Result<(), AllocError> {
    let mut shelf = large_shelf(alloc)?;
    let size = size_of_taken(&shelf.take(alloc, b"whole")?);
    let size = format!(in alloc; "{size}")?;
    line(shown, "whole", size.as_str())?;
    push_taken(alloc, shown, &mut shelf, &["above", "other"])
}

fn size_of_taken(taken: &Taken) -> usize {
    match taken {
        Taken::Bytes(bytes) => bytes.as_slice().len(),
        Taken::TooBig | Taken::Failed => 0,
    }
}
