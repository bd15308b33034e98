//! Keys, slots and values.
use std::alloc::AllocError;
use wb_base::Text;
use wb_diagram::{AnyKey, EdgeKey, Given, Key, NamedSlot};

pub fn yes_or_no(holds: bool) -> &'static str {
    if holds { "yes" } else { "no" }
}

/// A text, by its bytes.
pub fn push_text(shown: &mut String, text: &Text) -> Result<(), AllocError> {
    shown.push_str("text")?;
    for byte in text.as_slice() {
        write!(shown, " {byte}")?;
    }
    Ok(())
}

pub fn push_given(shown: &mut String, value: &Given) -> Result<(), AllocError> {
    match value {
        Given::Int(number) => write!(shown, "int {number}"),
        Given::Bool(flag) => write!(shown, "bool {}", yes_or_no(*flag)),
        Given::Text(text) => push_text(shown, text),
        Given::Object(object) => write!(shown, "object {}", object.0),
    }
}

/// A slot. The object stands at this name.
pub fn push_slot(shown: &mut String, name: &str, slot: &NamedSlot) -> Result<(), AllocError> {
    write!(
        shown,
        "; {name} {}; feature {}",
        slot.object.0,
        slot.feature.as_str()
    )
}

pub fn push_key_or_null(shown: &mut String, key: Option<&AnyKey>) -> Result<(), AllocError> {
    match key {
        Some(key) => push_key(shown, key),
        None => shown.push_str("null"),
    }
}

pub fn push_key(shown: &mut String, key: &AnyKey) -> Result<(), AllocError> {
    match key {
        AnyKey::Node(key) => {
            shown.push_str("node")?;
            push_path(shown, key)
        }
        AnyKey::Edge(key) => push_edge(shown, key),
    }
}

fn push_edge(shown: &mut String, key: &EdgeKey) -> Result<(), AllocError> {
    write!(shown, "edge {}.{} from", key.mapping, key.object.0)?;
    push_path(shown, &key.source)?;
    shown.push_str(" to")?;
    push_path(shown, &key.target)
}

fn push_path(shown: &mut String, key: &Key) -> Result<(), AllocError> {
    for pair in key.pairs.as_slice() {
        write!(shown, " {}.{}", pair.mapping, pair.object.0)?;
    }
    Ok(())
}
