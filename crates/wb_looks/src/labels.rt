ghost use Rattle.std.specs.Prelude.{◌≡◌, [], ◌∷◌, false, IfOk};
ghost use Rattle.wb_aql_values.specs.Bounds.{IsBounded};
ghost use Rattle.wb_aql_values.specs.Runs.{answered};
ghost use Rattle.wb_diagram.specs.declared.units.Unit.TheVariants.{Label as LabelUnit};
ghost use Rattle.wb_answers.specs.Seen.{Asks};
ghost use Rattle.wb_looks.specs.Looks.{form_of, label_of, label_units};

use std::alloc::{AllocError, Global};
use wb_answers::{Answers, Stop};
use wb_aql_values::{Answer, text_form};
use wb_base::{Duplicate, Text};
use wb_diagram::{AnyKey, Unit};
use wb_metamodel::Metamodel;
use wb_viewpoint::Style;

/// The label in a style of this number, which is asked if the style declares one.
#[tactic(auto, using(wb_answers::proofs::SeenLaws::after_none))]
pub fn label_of<A: Answers>(
    alloc: Global,
    metamodel: &Metamodel,
    key: &AnyKey,
    number: u32,
    style: &Style,
    answers: &mut A,
) -> Result<Text, Stop>
    requires metamodel { metamodel.now ≡ (A.seen answers.old).metamodel }
    requires fine { (A.seen answers.old).over ≡ false }
    ensures label { IfOk result (λ label. label ≡ label_of metamodel.now (A.seen answers.old).told key.now number style.now) }
    ensures asks { Asks (A.seen answers.old) (label_units key.now number style.now) result (A.seen answers.new) }
{
    match &style.label {
        Some(_) => declared_label(alloc, metamodel, key, number, answers),
        None => Ok(empty(alloc)),
    }
}

// The label in a style of this number that declares one; it is asked.
fn declared_label<A: Answers>(
    alloc: Global,
    metamodel: &Metamodel,
    key: &AnyKey,
    number: u32,
    answers: &mut A,
) -> Result<Text, Stop>
    requires metamodel { metamodel.now ≡ (A.seen answers.old).metamodel }
    requires fine { (A.seen answers.old).over ≡ false }
    ensures label { IfOk result (λ label. label ≡ form_of metamodel.now ((A.seen answers.old).told (LabelUnit number key.now))) }
    ensures asks { Asks (A.seen answers.old) (LabelUnit number key.now ∷ []) result (A.seen answers.new) }
{
    let unit = Unit::Label {
        style: number,
        key: key.copy(alloc)?,
    };
    let answer = answers.answer(alloc, &unit)?;
    Ok(form_of(alloc, metamodel, &answer)?)
}

// The text form of an answer, which is empty on a fault, or where it is too long.
fn form_of(alloc: Global, metamodel: &Metamodel, answer: &Answer) -> Result<Text, AllocError>
    requires { IfOk (answered answer.now) (IsBounded metamodel.now) }
    ensures { IfOk result (λ form. form ≡ form_of metamodel.now answer.now) }
{
    let form = match answer {
        Answer::Value(value) => text_form(alloc, value, metamodel)?,
        Answer::Fault(_) => None,
    };
    Ok(form.unwrap_or(empty(alloc)))
}

fn empty(alloc: Global) -> Text
    ensures { result ≡ [] }
{
    Text::from_string(String::new(alloc))
}
