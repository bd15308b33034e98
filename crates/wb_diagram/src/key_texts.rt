ghost use Rattle.std.specs.Prelude.{◌≡◌, ◌++◌, OnOk, IfOk, string_bytes};
ghost use Rattle.wb_diagram.specs.Keys.{IsWritable, any_key_text, edge_key_text, pair_text, path_text};

use crate::keys::{AnyKey, EdgeKey, Pair};
use std::alloc::{AllocError, Global};
use wb_base::Text;

// Puts the written form of a pair behind a text.
#[tactic(auto, unfolding(crate::specs::Keys::pair_text))]
pub(crate) fn push_pair(text: &mut String, pair: Pair) -> Result<(), AllocError>
    ensures { OnOk result (string_bytes text.new ≡ string_bytes text.old ++ pair_text pair) }
{
    write!(text, "{}.{}", pair.mapping, pair.object.0)
}

// Puts the written form of a path behind a text.
pub(crate) fn push_path(text: &mut String, path: &[Pair]) -> Result<(), AllocError>
    ensures { OnOk result (string_bytes text.new ≡ string_bytes text.old ++ path_text path.now) }
{
    for (place, pair) in path.iter().enumerate() {
        if place > 0 {
            text.push_str("-")?;
        }
        push_pair(text, *pair)?;
    }
    Ok(())
}

// The written form of a path.
pub(crate) fn path_string(alloc: Global, path: &[Pair]) -> Result<String, AllocError>
    ensures { IfOk result (λ text. string_bytes text ≡ path_text path.now) }
{
    let mut text = String::new(alloc);
    push_path(&mut text, path)?;
    Ok(text)
}

// Puts the written form of an edge's key behind a text.
#[tactic(auto, unfolding(crate::specs::Keys::edge_key_text))]
pub(crate) fn push_edge_key(text: &mut String, key: &EdgeKey) -> Result<(), AllocError>
    ensures { OnOk result (string_bytes text.new ≡ string_bytes text.old ++ edge_key_text key.now) }
{
    let semantic = Pair {
        mapping: key.mapping,
        object: key.object,
    };
    push_pair(text, semantic)?;
    text.push_str(":")?;
    push_path(text, key.source.pairs.as_slice())?;
    text.push_str(":")?;
    push_path(text, key.target.pairs.as_slice())
}

// Puts the written form of a key of either sort behind a text.
pub(crate) fn push_any_key(text: &mut String, key: &AnyKey) -> Result<(), AllocError>
    ensures { OnOk result (string_bytes text.new ≡ string_bytes text.old ++ any_key_text key.now) }
{
    match key {
        AnyKey::Node(key) => push_path(text, key.pairs.as_slice()),
        AnyKey::Edge(key) => push_edge_key(text, key),
    }
}

/// The written form of a key. No other key is written so.
pub fn write_key(alloc: Global, key: &AnyKey) -> Result<Text, AllocError>
    requires { IsWritable key.now }
    ensures { IfOk result (λ text. text ≡ any_key_text key.now) }
{
    let mut text = String::new(alloc);
    push_any_key(&mut text, key)?;
    Ok(Text::from_string(text))
}
