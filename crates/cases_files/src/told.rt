//! The files of a case, each told by its name, or by a word and what is made: `text` and the text, `spaces` and how many, or `numbered`
//! and texts with numbered parts between.
use std::alloc::{AllocError, Global};
use wb_base::Text;
use wb_json::Wrong;
use wb_outer::{Bytes, Shelf, Taken};

/// The bytes of a file that is told by its name, or made.
pub fn told_file<H: Shelf>(alloc: Global, from: &mut H, told: &[Text]) -> Result<Bytes, Wrong> {
    match told {
        [name] => needed_file(alloc, from, name.as_slice()),
        [sort, parts @ ..] => made(alloc, sort.as_str(), parts),
        [] => Err(Wrong::here(alloc)),
    }
}

/// The bytes of a file that has to be there.
pub fn needed_file<H: Shelf>(alloc: Global, from: &mut H, name: &[u8]) -> Result<Bytes, Wrong> {
    match from.take(alloc, name)? {
        Taken::Bytes(bytes) => Ok(bytes),
        Taken::TooBig | Taken::Failed => Err(Wrong::here(alloc)),
    }
}

fn made(alloc: Global, sort: &str, parts: &[Text]) -> Result<Bytes, Wrong> {
    match parts {
        [text] if sort == "text" => Ok(Bytes::from_slice(alloc, text.as_slice())?),
        [count] if sort == "spaces" => spaces(alloc, number_in(alloc, count)?),
        _ => numbered(alloc, parts),
    }
}

/// So many spaces.
fn spaces(alloc: Global, count: u32) -> Result<Bytes, Wrong> {
    let mut bytes = Vec::new(alloc);
    for _ in 0..count {
        bytes.push(b' ')?;
    }
    Ok(Bytes::from_vec(bytes))
}

/// Texts, and behind each but the last the first and the last of its numbers, and what stands before and after each of them.
fn numbered(alloc: Global, parts: &[Text]) -> Result<Bytes, Wrong> {
    let mut made = String::new(alloc);
    for part in parts.chunks(5) {
        push_part(alloc, &mut made, part)?;
    }
    Ok(Bytes::from_slice(alloc, made.as_str().as_bytes())?)
}

fn push_part(alloc: Global, made: &mut String, part: &[Text]) -> Result<(), Wrong> {
    match part {
        [text] => Ok(made.push_str(text.as_str())?),
        [text, first, last, before, after] => {
            made.push_str(text.as_str())?;
            let first = number_in(alloc, first)?;
            let last = number_in(alloc, last)?;
            Ok(push_numbers(made, first, last, before.as_str(), after.as_str())?)
        }
        _ => Err(Wrong::here(alloc)),
    }
}

/// The numbers from the first to the last, each between its two texts, with commas between them.
fn push_numbers(
    made: &mut String,
    first: u32,
    last: u32,
    before: &str,
    after: &str,
) -> Result<(), AllocError> {
    let mut between = "";
    for number in first..=last {
        write!(made, "{between}{before}{number}{after}")?;
        between = ",";
    }
    Ok(())
}

fn number_in(alloc: Global, told: &Text) -> Result<u32, Wrong> {
    match told.as_str().parse::<u32>() {
        Ok(number) => Ok(number),
        Err(_) => Err(Wrong::here(alloc)),
    }
}
