ghost use Rattle.std.specs.Prelude.{◌≡◌, ◌<◌, length, Ok, true, None, Some, IfSome, IfOk};
ghost use Rattle.serde_json.specs.View.{view};
ghost use Rattle.wb_json.specs.Form.{Gives, in_turn};
ghost use Rattle.wb_json.specs.Json.{json_of};
ghost use Rattle.wb_model_json.specs.declared.rows.ObjectRow.{ObjectRow as Row};
ghost use Rattle.wb_model_json.specs.RowText.{row_text_of, row_slot_with, row_slot_for, row_for, row_from, counted, is_known_row};
ghost use Rattle.wb_model_json.specs.Rows.{IsTextOf, has_count, text_of_row};

use crate::features::feature_at;
use crate::model_text::SlotText;
use crate::ranges::row_is_in_range;
use crate::row_text::RowText;
use crate::row_writing::row_text;
use crate::rows::{ObjectRow, RowSlot};
use crate::values::values_for;
use std::alloc::{AllocError, Global};
use wb_base::List;
use wb_json::{Form, Name, Value, Wrong, parse_json};
use wb_metamodel::{ClassId, FeatureId, Metamodel};
use wb_model::Scalar;

/// The row of which a text is written, and none where the text is not the writer's of any row.
pub fn read_object(
    alloc: Global,
    metamodel: &Metamodel,
    text: &[u8],
) -> Result<Option<ObjectRow>, AllocError>
    ensures row { IfOk result (λ answer. IfSome answer (λ row. IsTextOf metamodel.now text.now row)) }
    ensures none { IfOk result (λ answer. answer ≡ None → (row : Row) → ¬ (IsTextOf metamodel.now text.now row)) }
{
    metamodel.well_formed();
    match parse_json(alloc, text)? {
        Some(value) => written_row(alloc, metamodel, &value, text),
        None => Ok(None),
    }
}

// The row of a value, if the text is what is written of it.
fn written_row(
    alloc: Global,
    metamodel: &Metamodel,
    value: &Value,
    text: &[u8],
) -> Result<Option<ObjectRow>, AllocError>
    requires { json_of text.now ≡ Some (view value.now) }
    ensures row { IfOk result (λ answer. IfSome answer (λ row. IsTextOf metamodel.now text.now row)) }
    ensures none { IfOk result (λ answer. answer ≡ None → (row : Row) → ¬ (IsTextOf metamodel.now text.now row)) }
{
    metamodel.well_formed();
    match row_from(alloc, metamodel, value) {
        Ok(row) => {
            row_is_in_range(&row);
            let written = row_text(alloc, metamodel, &row)?;
            if written.as_slice() == text {
                Ok(Some(row))
            } else {
                Ok(None)
            }
        }
        Err(Wrong::At(_)) => Ok(None),
        Err(Wrong::NoMemory) => Err(AllocError),
    }
}

/// The row that a value says.
#[tactic(auto, unfolding(crate::specs::RowText::row_from))]
fn row_from(alloc: Global, metamodel: &Metamodel, value: &Value) -> Result<ObjectRow, Wrong>
    ensures { Gives result (row_from metamodel.now (view value.now)) }
{
    let text = RowText::read(alloc, value)?;
    row_for(alloc, metamodel, &text)
}

#[tactic(auto, unfolding(crate::specs::RowText::row_for))]
fn row_for(alloc: Global, metamodel: &Metamodel, text: &RowText) -> Result<ObjectRow, Wrong>
    ensures { Gives result (row_for metamodel.now text.now) }
{
    match metamodel.class_named(text.class.as_str().as_bytes()) {
        Some(class) => {
            let slots = slots_for(alloc, metamodel, class, text.slots.as_slice())?;
            Ok(ObjectRow { class, slots })
        }
        None => Err(Wrong::here(alloc)),
    }
}

fn slots_for(
    alloc: Global,
    metamodel: &Metamodel,
    class: ClassId,
    members: &[(Name, SlotText)],
) -> Result<List<RowSlot>, Wrong>
    requires { class < length metamodel.now.classes }
    ensures { Gives result (in_turn (row_slot_for metamodel.now class) members.now) }
{
    let mut slots = Vec::new(alloc);
    for member in members {
        slots.push(slot_for(alloc, metamodel, class, member)?)?;
    }
    Ok(List::from_vec(slots))
}

#[tactic(auto, unfolding(crate::specs::RowText::row_slot_for))]
fn slot_for(
    alloc: Global,
    metamodel: &Metamodel,
    class: ClassId,
    member: &(Name, SlotText),
) -> Result<RowSlot, Wrong>
    requires { class < length metamodel.now.classes }
    ensures { Gives result (row_slot_for metamodel.now class member.now) }
{
    match metamodel.feature_named(class, member.0.as_str().as_bytes()) {
        Some(feature) => slot_with(alloc, metamodel, &member.1, feature),
        None => Err(Wrong::here(alloc)),
    }
}

#[tactic(auto, unfolding(crate::specs::RowText::row_slot_with))]
fn slot_with(
    alloc: Global,
    metamodel: &Metamodel,
    text: &SlotText,
    number: FeatureId,
) -> Result<RowSlot, Wrong>
    requires { number < length metamodel.now.features }
    ensures { Gives result (row_slot_with metamodel.now text.now number) }
{
    let feature = feature_at(metamodel, number);
    let values = values_for(alloc, metamodel, feature.kind, text)?;
    counted(alloc, metamodel, number, values)
}

/// The slot, where it has as many values as it is to have.
fn counted(
    alloc: Global,
    metamodel: &Metamodel,
    feature: FeatureId,
    values: List<Scalar>,
) -> Result<RowSlot, Wrong>
    requires { feature < length metamodel.now.features }
    ensures { Gives result (counted metamodel.now feature values) }
{
    if has_count(metamodel, feature, values.as_slice()) {
        Ok(RowSlot { feature, values })
    } else {
        Err(Wrong::here(alloc))
    }
}

fn has_count(metamodel: &Metamodel, feature: FeatureId, values: &[Scalar]) -> bool
    requires { feature < length metamodel.now.features }
    ensures { result ≡ has_count metamodel.now feature values.now }
{
    if metamodel.feature(feature).many {
        !values.is_empty()
    } else {
        values.len() == 1
    }
}
