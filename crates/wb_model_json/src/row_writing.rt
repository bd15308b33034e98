ghost use Rattle.std.specs.Prelude.{◌≡◌, ◌∷◌, [], true, map, IfOk, OnOk};
ghost use Rattle.std.specs.List.{list_all};
ghost use Rattle.serde_json.specs.Data.{put};
ghost use Rattle.serde_json.specs.View.{view, members_view};
ghost use Rattle.wb_json.specs.ToJson.{members_json};
ghost use Rattle.wb_model_json.specs.RowText.{is_known_row, is_known_slot};
ghost use Rattle.wb_model_json.specs.Rows.{data_of_row, text_of_row, row_slot, slot_name};
ghost use Rattle.wb_model_json.specs.Written.{slot_data};

use crate::rows::{ObjectRow, RowSlot};
use crate::writing::{class_value, slot_value};
use serde_json::{Map, Value, json};
use std::alloc::{AllocError, Global};
use wb_base::Text;
use wb_json::write_json;
use wb_metamodel::Metamodel;

/// What is written of a row.
#[tactic(auto, unfolding(crate::specs::Rows::text_of_row), using(crate::proofs::RowLemmas::row_has_no_float))]
pub fn row_text(alloc: Global, metamodel: &Metamodel, row: &ObjectRow) -> Result<Text, AllocError>
    requires { is_known_row metamodel.now row.now ≡ true }
    ensures { IfOk result (λ text. text ≡ text_of_row metamodel.now row.now) }
{
    let value = row_value(alloc, metamodel, row)?;
    write_json(alloc, &value)
}

#[tactic(auto, unfolding(crate::specs::Rows::data_of_row))]
fn row_value(alloc: Global, metamodel: &Metamodel, row: &ObjectRow) -> Result<Value, AllocError>
    requires { is_known_row metamodel.now row.now ≡ true }
    ensures { IfOk result (λ value. view value ≡ data_of_row metamodel.now row.now) }
{
    let name = class_value(alloc, metamodel, row.class)?;
    let slots = slots_value(alloc, metamodel, row.slots.as_slice())?;
    json!(in alloc; {"class": name, "slots": slots})
}

#[tactic(auto, unfolding(wb_json::specs::ToJson::members_json))]
fn slots_value(alloc: Global, metamodel: &Metamodel, slots: &[RowSlot]) -> Result<Value, AllocError>
    requires { list_all (is_known_slot metamodel.now) slots.now ≡ true }
    ensures { IfOk result (λ value. view value ≡ members_json (slot_data metamodel.now) (map (row_slot metamodel.now) slots.now)) }
{
    let mut members = Map::new(alloc);
    for slot in slots {
        put_slot(alloc, &mut members, metamodel, slot)?;
    }
    Ok(Value::from(members))
}

fn put_slot(
    alloc: Global,
    members: &mut Map<String, Value>,
    metamodel: &Metamodel,
    slot: &RowSlot,
) -> Result<(), AllocError>
    requires { is_known_slot metamodel.now slot.now ≡ true }
    ensures { OnOk result (members_view members.new.entries
        ≡ put (slot_name metamodel.now slot.now) (slot_data metamodel.now (slot.now.feature, slot.now.values)) (members_view members.old.entries)) }
{
    let value = slot_value(alloc, metamodel, slot.feature, slot.values.as_slice())?;
    serde_json::put(
        members,
        alloc,
        metamodel.feature(slot.feature).name.as_str(),
        value,
    )
}
