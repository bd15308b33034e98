ghost use Rattle.std.specs.Prelude.{◌≡◌, codes, IfOk, OnOk, string_bytes};
ghost use Rattle.serde_json.specs.Data.{string, put as with_member};
ghost use Rattle.serde_json.specs.View.{members_view};
ghost use Rattle.wb_diagram.specs.Keys.{edge_key_text, key_text};
ghost use Rattle.wb_diagram.specs.Diagrams.{IsWritableEdge, edge_data, edge_text};

use crate::diagrams::Edge;
use crate::elements::{look_members, put_pair};
use crate::key_texts::push_edge_key;
use crate::keys::{EdgeKey, Pair};
use crate::values::{Shown, put_path};
use serde_json::{Map, Value};
use std::alloc::{AllocError, Global};
use wb_base::Text;
use wb_json::write_json;

// The written form of an edge's key.
fn edge_key_string(alloc: Global, key: &EdgeKey) -> Result<String, AllocError>
    ensures { IfOk result (λ text. string_bytes text ≡ edge_key_text key.now) }
{
    let mut text = String::new(alloc);
    push_edge_key(&mut text, key)?;
    Ok(text)
}

// Adds the keys of the elements at both ends.
fn put_ends(
    members: &mut Map<String, Value>,
    alloc: Global,
    key: &EdgeKey,
) -> Result<(), AllocError>
    ensures { OnOk result (members_view members.new.entries
        ≡ with_member (codes "target") (string (key_text key.now.target))
        (with_member (codes "source") (string (key_text key.now.source)) (members_view members.old.entries))) }
{
    put_path(members, alloc, "source", key.source.pairs.as_slice())?;
    put_path(members, alloc, "target", key.target.pairs.as_slice())
}

impl Shown for Edge {
    ghost is_writable = { IsWritableEdge };

    ghost data_of = { edge_data };

    #[tactic(auto, unfolding(crate::specs::Diagrams::edge_data))]
    fn shown(&self, alloc: Global, names: &[Text]) -> Result<Value, AllocError> {
        let semantic = Pair {
            mapping: self.key.mapping,
            object: self.key.object,
        };
        let key = edge_key_string(alloc, &self.key)?;
        let mut members = look_members(alloc, &self.look)?;
        serde_json::put(&mut members, alloc, "key", Value::String(key))?;
        put_pair(&mut members, alloc, semantic, names)?;
        put_ends(&mut members, alloc, &self.key)?;
        Ok(Value::Object(members))
    }
}

/// The JSON text that an edge has in a diagram. `names` are the names of the mappings by number.
#[tactic(auto, unfolding(crate::specs::Diagrams::edge_text), using(crate::proofs::Floats::edge_has_no_float))]
pub fn write_edge(alloc: Global, edge: &Edge, names: &[Text]) -> Result<Text, AllocError>
    requires { IsWritableEdge names.now edge.now }
    ensures { IfOk result (λ text. text ≡ edge_text names.now edge.now) }
{
    let value = edge.shown(alloc, names)?;
    write_json(alloc, &value)
}
