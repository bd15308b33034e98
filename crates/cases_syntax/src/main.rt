//! Prints the canonical spelling of the expression in a file, or the place at which it is refused: a program for `bench/`.
#![tactic(auto)]

ghost use Rattle.std.specs.Prelude.{IfOk};
ghost use Rattle.cases_syntax.specs.Shown.{Shows};

use std::alloc::{AllocError, Global};
use std::process::ExitCode;
use wb_aql_syntax::{ParseRefusal, parse, print};
use wb_base::Text;
use wb_console::{command_words, finish};
use wb_outer::{FileShelf, Shelf, StdoutSink, Taken};

fn main(rt: HostRuntime) -> ExitCode {
    finish(&mut StdoutSink::new(&rt), spelling_of_file(&rt))
}

/// What is printed of the file that the one word names; none where it cannot be read.
fn spelling_of_file(rt: &HostRuntime) -> Result<Option<Text>, AllocError> {
    let alloc = rt.alloc();
    let words = command_words(rt)?;
    let [name] = words.as_slice() else {
        return Ok(None);
    };
    match FileShelf::new(rt).take(alloc, name.as_slice())? {
        Taken::Bytes(bytes) => Ok(Some(spelling_of(alloc, bytes.as_slice())?)),
        _ => Ok(None),
    }
}

/// What is printed of a text.
#[tactic(auto, using(crate::proofs::Shown::shown))]
fn spelling_of(alloc: Global, text: &[u8]) -> Result<Text, AllocError>
    ensures { IfOk result (Shows text.now) }
{
    match parse(alloc, text) {
        Ok(expression) => print(alloc, &expression),
        Err(ParseRefusal::Syntax(_)) => Text::from_str(alloc, "Syntax"),
        Err(ParseRefusal::TooDeep(_)) => Text::from_str(alloc, "TooDeep"),
        Err(ParseRefusal::NoMemory) => Err(AllocError),
    }
}
