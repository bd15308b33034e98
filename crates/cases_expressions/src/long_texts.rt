use crate::checks::check_text;
use crate::refused;
use std::alloc::{AllocError, Global};
use wb_aql_syntax::{Text, parse, print};
use wb_aql_tokens::tokens_of;
use wb_metamodel::Metamodel;

/// What is asked of a text that is too long for a line.
#[derive(Clone, Copy)]
pub enum Asked {
    /// Where its second token starts.
    Second,
    /// Whether it is read.
    Reading,
    /// How many bytes its canonical spelling has.
    Spelling,
    /// Whether its names are known, where none is in scope.
    Names,
}

/// What is answered to a line: how often a part stands in the text, the part, and the end of the text.
pub fn answer_long(
    alloc: Global,
    metamodel: &Metamodel,
    asked: Asked,
    line: &str,
) -> Result<Text, AllocError> {
    let text = long_text(alloc, line)?;
    match asked {
        Asked::Second => second_token(alloc, &text),
        Asked::Reading => reading(alloc, &text),
        Asked::Spelling => spelling(alloc, &text),
        Asked::Names => check_text(alloc, metamodel, &[], &text),
    }
}

fn long_text(alloc: Global, line: &str) -> Result<Vec<u8>, AllocError> {
    match line.split_once(' ') {
        Some((count, parts)) => repeated(alloc, count.parse::<u32>().unwrap_or(0), parts),
        None => Ok(Vec::new(alloc)),
    }
}

fn repeated(alloc: Global, count: u32, parts: &str) -> Result<Vec<u8>, AllocError> {
    let (part, end) = parts.split_once(' ').unwrap_or((parts, ""));
    let mut text = Vec::new(alloc);
    for _ in 0..count {
        text.extend_from_slice(part.as_bytes())?;
    }
    text.extend_from_slice(end.as_bytes())?;
    Ok(text)
}

fn second_token(alloc: Global, text: &[u8]) -> Result<Text, AllocError> {
    let lexed = tokens_of(alloc, text)?;
    let start = lexed.starts.as_slice().get(1).copied().unwrap_or(0);
    Ok(Text::from_string(format!(in alloc; "{start}")?))
}

fn reading(alloc: Global, text: &[u8]) -> Result<Text, AllocError> {
    match parse(alloc, text) {
        Ok(_) => Text::from_str(alloc, "read"),
        Err(refusal) => refused(alloc, refusal),
    }
}

fn spelling(alloc: Global, text: &[u8]) -> Result<Text, AllocError> {
    match parse(alloc, text) {
        Ok(expr) => {
            let spelled = print(alloc, &expr)?;
            Ok(Text::from_string(format!(in alloc; "{} bytes", spelled.as_slice().len())?))
        }
        Err(refusal) => refused(alloc, refusal),
    }
}
