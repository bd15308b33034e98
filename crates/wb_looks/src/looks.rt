ghost use Rattle.std.specs.Prelude.{◌≡◌, ◌≤◌, false, length, IfOk, IsSome, Some};
ghost use Rattle.wb_spec_check.specs.Units.{mapping_of_key};
ghost use Rattle.wb_answers.specs.Seen.{Asks};
ghost use Rattle.wb_looks.specs.Looks.{HasMapping, look, look_by, look_units, looks_of, units_by};

use crate::labels::label_of;
use crate::styles::{style_at, style_used};
use std::alloc::{AllocError, Global};
use wb_answers::{Answers, Stop};
use wb_base::Text;
use wb_diagram::{AnyKey, Look};
use wb_metamodel::Metamodel;
use wb_spec_check::CheckedViewpoint;
use wb_viewpoint::{Looks, Style};

/// The look of an element or an edge; the predicates of its conditional styles are asked up to the first that is true, and then its label.
pub fn look<A: Answers>(
    alloc: Global,
    spec: &CheckedViewpoint,
    metamodel: &Metamodel,
    key: &AnyKey,
    answers: &mut A,
) -> Result<Look, Stop>
    requires mapping { HasMapping spec.now key.now }
    requires metamodel { metamodel.now ≡ (A.seen answers.old).metamodel }
    requires fine { (A.seen answers.old).over ≡ false }
    ensures look { IfOk result (λ it. it ≡ look spec.now metamodel.now (A.seen answers.old).told key.now) }
    ensures asks { Asks (A.seen answers.old) (look_units spec.now (A.seen answers.old).told key.now) result (A.seen answers.new) }
{
    look_by(alloc, looks_of(spec, key), metamodel, key, answers)
}

// The looks of a key's mapping.
fn looks_of<'a>(spec: &'a CheckedViewpoint, key: &AnyKey) -> &'a Looks
    requires { HasMapping spec.now key.now }
    ensures same { result.now ≡ looks_of spec.now key.now }
    ensures few { length result.now.styles ≤ 32 }
{
    let mappings = spec.viewpoint().content().mappings.as_slice();
    &mappings[mapping_of_key(key) as usize].looks
}

// The number of a key's mapping.
fn mapping_of_key(key: &AnyKey) -> u32
    requires { IsSome (mapping_of_key key.now) }
    ensures { mapping_of_key key.now ≡ Some result }
{
    match key {
        AnyKey::Node(key) => {
            let pairs = key.pairs.as_slice();
            pairs[pairs.len() - 1].mapping
        }
        AnyKey::Edge(key) => key.mapping,
    }
}

fn look_by<A: Answers>(
    alloc: Global,
    looks: &Looks,
    metamodel: &Metamodel,
    key: &AnyKey,
    answers: &mut A,
) -> Result<Look, Stop>
    requires few { length looks.now.styles ≤ 32 }
    requires metamodel { metamodel.now ≡ (A.seen answers.old).metamodel }
    requires fine { (A.seen answers.old).over ≡ false }
    ensures look { IfOk result (λ it. it ≡ look_by looks.now metamodel.now (A.seen answers.old).told key.now) }
    ensures asks { Asks (A.seen answers.old) (units_by looks.now (A.seen answers.old).told key.now) result (A.seen answers.new) }
{
    let number = style_used(alloc, looks, key, answers)?;
    let style = style_at(looks, number);
    let label = label_of(alloc, metamodel, key, number, style, answers)?;
    Ok(in_style(alloc, number, style, label)?)
}

// The look in a style of this number, with this label.
fn in_style(alloc: Global, number: u32, style: &Style, label: Text) -> Result<Look, AllocError>
    ensures { IfOk result (λ it. it ≡ record { style = number; shape = style.now.shape; color = style.now.color; label = label }) }
{
    let shape = Text::from_str(alloc, style.shape.as_str())?;
    let color = Text::from_str(alloc, style.color.as_str())?;
    Ok(Look {
        style: number,
        shape,
        color,
        label,
    })
}
