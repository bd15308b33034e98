//! A service that is called with values from outside.
ghost use Rattle.std.specs.Prelude.{◌≤◌, IfOk, length};
ghost use Rattle.wb_metamodel.specs.Metamodel.{Metamodel};
ghost use Rattle.wb_aql_services.specs.Asked.{IsArgument};
ghost use Rattle.wb_aql_values.specs.Bounds.{IsBounded};

use crate::shown::{push_answer, push_reads};
use std::alloc::{AllocError, Global};
use std::slice::from_ref;
use wb_aql_services::{Argument, Reads, Service, Value, serve};
use wb_base::Text;
use wb_model::{Model, Scalar};

/// How many bytes a text of a value has at most.
const MAX_TEXT: usize = 65536;

/// What `concat` gives of two words, and the cells that it reads.
pub fn push_concat(
    alloc: Global,
    shown: &mut String,
    model: &Model,
    words: &str,
) -> Result<(), AllocError> {
    match words.split_once(' ') {
        Some((first, second)) => push_words(alloc, shown, model, first, second),
        None => shown.push_str("no two words"),
    }
}

fn push_words(
    alloc: Global,
    shown: &mut String,
    model: &Model,
    first: &str,
    second: &str,
) -> Result<(), AllocError> {
    if first.len() > MAX_TEXT || second.len() > MAX_TEXT {
        return shown.push_str("no short words");
    }
    let receiver = text_value(alloc, first)?;
    let argument = Argument::Of(text_value(alloc, second)?);
    push_service(alloc, shown, model, &receiver, &argument)
}

fn push_service(
    alloc: Global,
    shown: &mut String,
    model: &Model,
    receiver: &Value,
    argument: &Argument,
) -> Result<(), AllocError>
    requires receiver { IsBounded model.now.metamodel receiver.now }
    requires argument { IsArgument model.now.metamodel argument.now }
{
    let mut reads = Reads::new(alloc);
    let answer = serve(
        alloc,
        Service::Concat,
        receiver,
        from_ref(argument),
        model,
        &mut reads,
    )?;
    push_answer(shown, model.metamodel(), &answer)?;
    shown.push_str(" ;")?;
    push_reads(shown, model.metamodel(), reads.as_slice())
}

fn text_value(alloc: Global, word: &str) -> Result<Value, AllocError>
    requires { length word.now ≤ 65536 }
    ensures { IfOk result (λ value. (mm : Metamodel) → IsBounded mm value) }
{
    Ok(Value::One(Scalar::Text(Text::from_str(alloc, word)?)))
}
