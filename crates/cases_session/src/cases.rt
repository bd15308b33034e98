//! The cases of a file, each an object of JSON: its name, its three files, and its steps, which are commands and looks.
ghost use Rattle.wb_spec_check.specs.Checked.{IsCheckedBy};

use crate::commands::push_command;
use crate::opening::{metamodel_in, model_in, spec_in};
use crate::shown::push_look;
use cases_files::needed_file;
use std::alloc::Global;
use wb_base::Text;
use wb_json::{Value, Wrong, needed, parse_json};
use wb_model::Model;
use wb_outer::{Shelf, Steps};
use wb_session::{OpenRefusal, Session};
use wb_spec_check::CheckedViewpoint;

/// The label of the count of evaluations.
pub struct Evaluations;

/// Puts what each case of a file shows last.
pub fn push_cases<H: Shelf>(
    alloc: Global,
    from: &mut H,
    shown: &mut String,
    name: &[u8],
) -> Result<(), Wrong> {
    let bytes = needed_file(alloc, from, name)?;
    match parse_json(alloc, bytes.as_slice())? {
        Some(cases) => push_each(alloc, from, shown, &cases),
        None => Err(Wrong::here(alloc)),
    }
}

fn push_each<H: Shelf>(
    alloc: Global,
    from: &mut H,
    shown: &mut String,
    cases: &Value,
) -> Result<(), Wrong> {
    let Some(cases) = cases.as_array() else {
        return Err(Wrong::here(alloc));
    };
    for case in cases {
        push_case(alloc, from, shown, case)?;
    }
    Ok(())
}

fn push_case<H: Shelf>(
    alloc: Global,
    from: &mut H,
    shown: &mut String,
    case: &Value,
) -> Result<(), Wrong> {
    push_name(alloc, shown, case)?;
    let metamodel = metamodel_in(alloc, from, case)?;
    let spec = spec_in(alloc, from, case, &metamodel)?;
    let model = model_in(alloc, from, case, metamodel)?;
    push_session(alloc, shown, case, spec, model)
}

fn push_name(alloc: Global, shown: &mut String, case: &Value) -> Result<(), Wrong> {
    let name: Text = needed(alloc, case, "name")?;
    shown.push_str(name.as_str())?;
    shown.push('\n')?;
    Ok(())
}

/// The steps over what is opened, or the word of the refusal to open it.
fn push_session(
    alloc: Global,
    shown: &mut String,
    case: &Value,
    spec: CheckedViewpoint,
    model: Model,
) -> Result<(), Wrong>
    requires { IsCheckedBy model.metamodel spec }
{
    let mut steps: Steps<Evaluations> = Steps::new();
    match Session::open(alloc, spec, model, &mut steps) {
        Ok(mut session) => push_steps(alloc, shown, case, &mut session, &mut steps),
        Err(refusal) => push_refused(shown, refusal),
    }
}

fn push_refused(shown: &mut String, refusal: OpenRefusal) -> Result<(), Wrong> {
    match refusal {
        OpenRefusal::NoRoot => Ok(shown.push_str("no_root\n")?),
        OpenRefusal::TooLarge => Ok(shown.push_str("too_large\n")?),
        OpenRefusal::NoMemory => Err(Wrong::NoMemory),
    }
}

fn push_steps(
    alloc: Global,
    shown: &mut String,
    case: &Value,
    session: &mut Session<Steps<Evaluations>>,
    steps: &mut Steps<Evaluations>,
) -> Result<(), Wrong> {
    let Some(told) = case.get("steps") else {
        return Err(Wrong::here(alloc));
    };
    let Some(told) = told.as_array() else {
        return Err(Wrong::here(alloc));
    };
    for step in told {
        push_step(alloc, shown, step, session, steps)?;
    }
    Ok(())
}

/// A step without a command is a look.
fn push_step(
    alloc: Global,
    shown: &mut String,
    step: &Value,
    session: &mut Session<Steps<Evaluations>>,
    steps: &mut Steps<Evaluations>,
) -> Result<(), Wrong> {
    match step.get("command") {
        Some(body) => push_command(alloc, shown, body, session, steps),
        None => push_look(alloc, shown, session),
    }
}
