//! Prints what the crates of expressions answer to each line of the input, and to texts too long for a line.
#![tactic(auto)]

mod checks;
mod long_texts;
mod tokens;
mod values;

use crate::checks::{check_line, library};
use crate::long_texts::{Asked, answer_long};
use crate::tokens::{BYTES, tokens_in};
use std::alloc::{AllocError, Global};
use std::io;
use wb_aql_syntax::{ParseRefusal, Text, parse, print};
use wb_aql_tokens::is_expression_name;
use wb_metamodel::Metamodel;

fn main(rt: HostRuntime) -> io::Result<()> {
    let alloc = rt.alloc();
    let metamodel = library(alloc)?;
    for line in rt.lines(alloc) {
        let line = line?;
        let shown = answer(alloc, &metamodel, line.as_str())?;
        println!(rt; "{} => {}", line.as_str(), shown.as_str())?;
    }
    for text in BYTES {
        let shown = tokens_in(alloc, text)?;
        println!(rt; "bytes{}", shown.as_str())?;
    }
    let shown = values::shown(alloc)?;
    println!(rt; "{}", shown.as_str())
}

/// What is answered to a line: a word that says what is asked, and a text.
fn answer(alloc: Global, metamodel: &Metamodel, line: &str) -> Result<Text, AllocError> {
    match line.split_once(' ') {
        Some(("tokens", text)) => tokens_in(alloc, text.as_bytes()),
        Some(("print", text)) => printed(alloc, text.as_bytes()),
        Some(("name", text)) => yes_or_no(alloc, is_expression_name(text)),
        Some(("check", text)) => check_line(alloc, metamodel, text),
        Some(("long-second", text)) => answer_long(alloc, metamodel, Asked::Second, text),
        Some(("long-read", text)) => answer_long(alloc, metamodel, Asked::Reading, text),
        Some(("long-print", text)) => answer_long(alloc, metamodel, Asked::Spelling, text),
        Some(("long-check", text)) => answer_long(alloc, metamodel, Asked::Names, text),
        _ => Text::from_str(alloc, "no case"),
    }
}

fn yes_or_no(alloc: Global, holds: bool) -> Result<Text, AllocError> {
    Text::from_str(alloc, if holds { "yes" } else { "no" })
}

/// The canonical spelling of a text, or why it has none.
fn printed(alloc: Global, text: &[u8]) -> Result<Text, AllocError> {
    match parse(alloc, text) {
        Ok(expr) => print(alloc, &expr),
        Err(refusal) => refused(alloc, refusal),
    }
}

/// What a refusal of a text says.
pub fn refused(alloc: Global, refusal: ParseRefusal) -> Result<Text, AllocError> {
    match refusal {
        ParseRefusal::Syntax(place) => Ok(Text::from_string(format!(in alloc; "Syntax {place}")?)),
        ParseRefusal::TooDeep(place) => {
            Ok(Text::from_string(format!(in alloc; "TooDeep {place}")?))
        }
        ParseRefusal::NoMemory => Err(AllocError),
    }
}
