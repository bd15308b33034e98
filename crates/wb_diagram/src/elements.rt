ghost use Rattle.std.specs.Prelude.{◌≡◌, ◌<◌, codes, length, OnOk, IfOk};
ghost use Rattle.serde_json.specs.Data.{string, object, member, no_members, put as with_member};
ghost use Rattle.serde_json.specs.View.{view, members_view};
ghost use Rattle.wb_json.specs.ToJson.{option_json};
ghost use Rattle.wb_diagram.specs.Keys.{IsPath, own_pair, parent_pairs};
ghost use Rattle.wb_diagram.specs.Diagrams.{IsWritableElement, element_data, element_text, name_of, path_data, place_data, whole_number};

use crate::diagrams::{Element, Look};
use crate::key_texts::path_string;
use crate::keys::{Key, Pair};
use crate::values::{Shown, put_path, put_text};
use serde_json::{Map, Value, json};
use std::alloc::{AllocError, Global};
use wb_base::Text;
use wb_json::write_json;

// The members that say how an element or an edge looks.
pub(crate) fn look_members(alloc: Global, look: &Look) -> Result<Map<String, Value>, AllocError>
    ensures { IfOk result (λ members. members_view members.entries
        ≡ member (codes "color") (string look.now.color)
        (member (codes "label") (string look.now.label)
        (member (codes "shape") (string look.now.shape) no_members))) }
{
    let mut members = Map::new(alloc);
    put_text(&mut members, alloc, "color", look.color.as_str())?;
    put_text(&mut members, alloc, "label", look.label.as_str())?;
    put_text(&mut members, alloc, "shape", look.shape.as_str())?;
    Ok(members)
}

// The last pair of a key.
#[tactic(auto, unfolding(crate::specs::Keys::own_pair))]
fn last_pair(key: &Key) -> Pair
    requires { IsPath key.now }
    ensures { result ≡ own_pair key.now }
{
    let pairs = key.pairs.as_slice();
    pairs[pairs.len() - 1]
}

// The key of the parent, or null.
#[tactic(auto, unfolding(crate::specs::Keys::parent_pairs))]
fn parent_value(alloc: Global, key: &Key) -> Result<Value, AllocError>
    requires { IsPath key.now }
    ensures { IfOk result (λ value. view value ≡ path_data (parent_pairs key.now)) }
{
    let pairs = key.pairs.as_slice();
    let parent = &pairs[..pairs.len() - 1];
    if parent.is_empty() {
        return Ok(Value::Null);
    }
    Ok(Value::String(path_string(alloc, parent)?))
}

fn position_value(alloc: Global, position: Option<(i64, i64)>) -> Result<Value, AllocError>
    ensures { IfOk result (λ value. view value ≡ option_json place_data position) }
{
    match position {
        None => Ok(Value::Null),
        Some((right, down)) => json!(in alloc; [right, down]),
    }
}

// Adds a mapping by its name, and an object.
#[tactic(auto, unfolding(crate::specs::Diagrams::name_of))]
pub(crate) fn put_pair(
    members: &mut Map<String, Value>,
    alloc: Global,
    pair: Pair,
    names: &[Text],
) -> Result<(), AllocError>
    requires { pair.mapping < length names.now }
    ensures { OnOk result (members_view members.new.entries
        ≡ with_member (codes "object") (whole_number pair.object)
        (with_member (codes "mapping") (string (name_of names.now pair.mapping)) (members_view members.old.entries))) }
{
    put_text(
        members,
        alloc,
        "mapping",
        names[pair.mapping as usize].as_str(),
    )?;
    serde_json::put(members, alloc, "object", Value::from(pair.object.0))
}

// Adds where an element stands: its parent, and its position there.
fn put_place(
    members: &mut Map<String, Value>,
    alloc: Global,
    element: &Element,
) -> Result<(), AllocError>
    requires { IsPath element.now.key }
    ensures { OnOk result (members_view members.new.entries
        ≡ with_member (codes "position") (option_json place_data element.now.position)
        (with_member (codes "parent") (path_data (parent_pairs element.now.key)) (members_view members.old.entries))) }
{
    let parent = parent_value(alloc, &element.key)?;
    serde_json::put(members, alloc, "parent", parent)?;
    let position = position_value(alloc, element.position)?;
    serde_json::put(members, alloc, "position", position)
}

impl Shown for Element {
    ghost is_writable = { IsWritableElement };

    ghost data_of = { element_data };

    #[tactic(auto, unfolding(crate::specs::Diagrams::element_data))]
    fn shown(&self, alloc: Global, names: &[Text]) -> Result<Value, AllocError> {
        let mut members = look_members(alloc, &self.look)?;
        put_path(&mut members, alloc, "key", self.key.pairs.as_slice())?;
        put_pair(&mut members, alloc, last_pair(&self.key), names)?;
        put_place(&mut members, alloc, self)?;
        Ok(Value::Object(members))
    }
}

/// The JSON text that an element has in a diagram. `names` are the names of the mappings by number.
#[tactic(auto, unfolding(crate::specs::Diagrams::element_text), using(crate::proofs::Floats::element_has_no_float))]
pub fn write_element(alloc: Global, element: &Element, names: &[Text]) -> Result<Text, AllocError>
    requires { IsWritableElement names.now element.now }
    ensures { IfOk result (λ text. text ≡ element_text names.now element.now) }
{
    let value = element.shown(alloc, names)?;
    write_json(alloc, &value)
}
