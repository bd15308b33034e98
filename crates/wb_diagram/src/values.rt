ghost use Rattle.std.specs.Prelude.{◌≡◌, List as Listed, ℕ, All, OnOk, IfOk};
ghost use Rattle.serde_json.specs.Data.{Data, string, put as with_member};
ghost use Rattle.serde_json.specs.View.{view, members_view};
ghost use Rattle.wb_diagram.specs.Keys.{path_text};
ghost use Rattle.wb_json.specs.ToJson.{list_json};

use crate::key_texts::path_string;
use crate::keys::Pair;
use serde_json::{Map, Value};
use std::alloc::{AllocError, Global};
use wb_base::{List, Text};
use wb_json::ToJson;

// A part of a diagram, which is written as JSON by the names of the mappings.
pub(crate) trait Shown {
    ghost is_writable: { Listed (Listed ℕ) → Self → Type 0 };

    ghost data_of: { Listed (Listed ℕ) → Self → Data };

    fn shown(&self, alloc: Global, names: &[Text]) -> Result<Value, AllocError>
        requires { is_writable names.now self.now }
        ensures { IfOk result (λ value. view value ≡ data_of names.now self.now) };
}

// The list of the items' values.
#[tactic(auto, unfolding(wb_json::specs::ToJson::list_json))]
pub(crate) fn list_value<T: Shown>(
    alloc: Global,
    items: &[T],
    names: &[Text],
) -> Result<Value, AllocError>
    requires { All (T.is_writable names.now) items.now }
    ensures { IfOk result (λ value. view value ≡ list_json (T.data_of names.now) items.now) }
{
    let mut values = Vec::new(alloc);
    for item in items {
        values.push(item.shown(alloc, names)?)?;
    }
    Ok(Value::Array(values))
}

// Adds a member that is a string.
pub(crate) fn put_text(
    members: &mut Map<String, Value>,
    alloc: Global,
    name: &str,
    text: &str,
) -> Result<(), AllocError>
    ensures { OnOk result (members_view members.new.entries
        ≡ with_member name.now (string text.now) (members_view members.old.entries)) }
{
    let value = Value::String(String::from_str(alloc, text)?);
    serde_json::put(members, alloc, name, value)
}

// Adds a member that is a list.
pub(crate) fn put_list<T: Shown>(
    members: &mut Map<String, Value>,
    alloc: Global,
    name: &str,
    items: &[T],
    names: &[Text],
) -> Result<(), AllocError>
    requires { All (T.is_writable names.now) items.now }
    ensures { OnOk result (members_view members.new.entries
        ≡ with_member name.now (list_json (T.data_of names.now) items.now) (members_view members.old.entries)) }
{
    let value = list_value(alloc, items, names)?;
    serde_json::put(members, alloc, name, value)
}

// Adds a member that is the written form of a path.
pub(crate) fn put_path(
    members: &mut Map<String, Value>,
    alloc: Global,
    name: &str,
    path: &[Pair],
) -> Result<(), AllocError>
    ensures { OnOk result (members_view members.new.entries
        ≡ with_member name.now (string (path_text path.now)) (members_view members.old.entries)) }
{
    let text = path_string(alloc, path)?;
    serde_json::put(members, alloc, name, Value::String(text))
}

// Adds a member that is a list of texts.
pub(crate) fn put_texts(
    members: &mut Map<String, Value>,
    alloc: Global,
    name: &str,
    texts: &List<Text>,
) -> Result<(), AllocError>
    ensures { OnOk result (members_view members.new.entries
        ≡ with_member name.now (list_json string texts.now) (members_view members.old.entries)) }
{
    let value = texts.to_json(alloc)?;
    serde_json::put(members, alloc, name, value)
}
