ghost use Rattle.std.specs.Prelude.{◌≡◌, ◌++◌, OnOk, codes, decimal, string_bytes};
ghost use Rattle.wb_diagram.specs.Keys.{any_key_text, pair_text, path_text};
ghost use Rattle.wb_diagram.specs.Units.{numbered_text, parent_text, unit_text};

use crate::key_texts::{push_any_key, push_pair, push_path};
use crate::keys::{AnyKey, Key, Pair};
use crate::units::Unit;
use std::alloc::AllocError;

// Puts a word and a pair behind a text.
fn push_at_pair(text: &mut String, word: &str, pair: Pair) -> Result<(), AllocError>
    ensures { OnOk result (string_bytes text.new ≡ string_bytes text.old ++ (word.now ++ pair_text pair)) }
{
    text.push_str(word)?;
    push_pair(text, pair)
}

// Puts a word and a number behind a text, each with a blank behind it.
fn push_numbered(text: &mut String, word: &str, number: u32) -> Result<(), AllocError>
    ensures { OnOk result (string_bytes text.new
        ≡ string_bytes text.old ++ (word.now ++ codes " " ++ decimal number ++ codes " ")) }
{
    write!(text, "{word} {number} ")
}

// Puts a word, a number and a key behind a text.
#[tactic(auto, unfolding(crate::specs::Units::numbered_text))]
fn push_at_key(text: &mut String, word: &str, number: u32, key: &AnyKey) -> Result<(), AllocError>
    ensures { OnOk result (string_bytes text.new
        ≡ string_bytes text.old ++ numbered_text word.now number (any_key_text key.now)) }
{
    push_numbered(text, word, number)?;
    push_any_key(text, key)
}

// Puts the key of a parent behind a text, or `-` for the diagram.
#[tactic(auto, unfolding(crate::specs::Units::parent_text))]
fn push_parent(text: &mut String, parent: &Option<Key>) -> Result<(), AllocError>
    ensures { OnOk result (string_bytes text.new ≡ string_bytes text.old ++ parent_text parent.now) }
{
    match parent {
        None => text.push_str("-"),
        Some(key) => push_path(text, key.pairs.as_slice()),
    }
}

// Puts the unit of the candidates of a mapping behind a text.
#[tactic(auto, unfolding(crate::specs::Units::numbered_text))]
fn push_candidates(text: &mut String, mapping: u32, parent: &Option<Key>) -> Result<(), AllocError>
    ensures { OnOk result (string_bytes text.new
        ≡ string_bytes text.old ++ numbered_text (codes "candidates") mapping (parent_text parent.now)) }
{
    push_numbered(text, "candidates", mapping)?;
    push_parent(text, parent)
}

// Puts the unit of a candidate's precondition behind a text.
fn push_precondition(text: &mut String, key: &Key) -> Result<(), AllocError>
    ensures { OnOk result (string_bytes text.new ≡ string_bytes text.old ++ (codes "precondition " ++ path_text key.now.pairs)) }
{
    text.push_str("precondition ")?;
    push_path(text, key.pairs.as_slice())
}

// Puts the written form of a unit behind a text.
#[tactic(auto, unfolding(crate::specs::Units::unit_text))]
pub(crate) fn push_unit(text: &mut String, unit: &Unit) -> Result<(), AllocError>
    ensures { OnOk result (string_bytes text.new ≡ string_bytes text.old ++ unit_text unit.now) }
{
    match unit {
        Unit::Candidates { mapping, parent } => push_candidates(text, *mapping, parent),
        Unit::Precondition { key } => push_precondition(text, key),
        Unit::EdgeCandidates { mapping } => write!(text, "edge-candidates {mapping}"),
        Unit::EdgePrecondition { pair } => push_at_pair(text, "edge-precondition ", *pair),
        Unit::Source { pair } => push_at_pair(text, "source ", *pair),
        Unit::Target { pair } => push_at_pair(text, "target ", *pair),
        Unit::Style { style, key } => push_at_key(text, "style", *style, key),
        Unit::Label { style, key } => push_at_key(text, "label", *style, key),
        Unit::Filter { filter, key } => push_at_key(text, "filter", *filter, key),
    }
}
