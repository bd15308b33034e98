//! What a command asks for, member by member.
use crate::arguments::push_arguments;
use crate::parts::{push_given, push_key, push_key_or_null, push_slot, yes_or_no};
use std::alloc::AllocError;
use wb_base::Text;
use wb_diagram::{Action, AnyKey, Given, NamedSlot, ObjectId};

pub fn push_action(shown: &mut String, action: &Action) -> Result<(), AllocError> {
    match action {
        Action::Create { class, slot } => push_create(shown, class, slot.as_ref()),
        Action::Set { slot, value } => push_edit(shown, "set", slot, value),
        Action::Add { slot, value } => push_edit(shown, "add", slot, value),
        Action::Take { slot, value } => push_edit(shown, "take", slot, value),
        Action::Unset { slot } => push_unset(shown, slot),
        Action::MoveTo { object, slot } => push_move_to(shown, *object, slot),
        Action::Remove { object } => write!(shown, "remove; object {}", object.0),
        Action::Tool { tool, arguments } => {
            write!(shown, "tool; tool {}; arguments given", tool.as_str())?;
            push_arguments(shown, arguments)
        }
        Action::Move { key, x, y } => push_move(shown, key, *x, *y),
        Action::Arrange => shown.push_str("arrange"),
        Action::Undo => shown.push_str("undo"),
        Action::Redo => shown.push_str("redo"),
        Action::Show {
            parent,
            mapping,
            object,
        } => push_show(shown, parent.as_ref(), mapping, *object),
        Action::Unshow { key } => push_marked(shown, "unshow", key),
        Action::Hide { key } => push_marked(shown, "hide", key),
        Action::Reveal { key } => push_marked(shown, "reveal", key),
        Action::Layer { layer, active } => push_switch(shown, "layer", layer, *active),
        Action::Filter { filter, active } => push_switch(shown, "filter", filter, *active),
    }
}

fn push_create(
    shown: &mut String,
    class: &Text,
    slot: Option<&NamedSlot>,
) -> Result<(), AllocError> {
    write!(shown, "create; class {}", class.as_str())?;
    match slot {
        Some(slot) => push_slot(shown, "in", slot),
        None => shown.push_str("; in null; feature null"),
    }
}

fn push_edit(
    shown: &mut String,
    command: &str,
    slot: &NamedSlot,
    value: &Given,
) -> Result<(), AllocError> {
    shown.push_str(command)?;
    push_slot(shown, "object", slot)?;
    shown.push_str("; value ")?;
    push_given(shown, value)
}

fn push_unset(shown: &mut String, slot: &NamedSlot) -> Result<(), AllocError> {
    shown.push_str("unset")?;
    push_slot(shown, "object", slot)
}

fn push_move_to(shown: &mut String, object: ObjectId, slot: &NamedSlot) -> Result<(), AllocError> {
    write!(shown, "move_to; object {}", object.0)?;
    push_slot(shown, "in", slot)
}

fn push_move(shown: &mut String, key: &AnyKey, x: i64, y: i64) -> Result<(), AllocError> {
    push_marked(shown, "move", key)?;
    write!(shown, "; x {x}; y {y}")
}

fn push_show(
    shown: &mut String,
    parent: Option<&AnyKey>,
    mapping: &Text,
    object: ObjectId,
) -> Result<(), AllocError> {
    shown.push_str("show; parent ")?;
    push_key_or_null(shown, parent)?;
    write!(shown, "; mapping {}; object {}", mapping.as_str(), object.0)
}

/// A command that gives a key first.
fn push_marked(shown: &mut String, command: &str, key: &AnyKey) -> Result<(), AllocError> {
    write!(shown, "{command}; key ")?;
    push_key(shown, key)
}

fn push_switch(
    shown: &mut String,
    command: &str,
    name: &Text,
    active: bool,
) -> Result<(), AllocError> {
    let active = yes_or_no(active);
    write!(
        shown,
        "{command}; {command} {}; active {active}",
        name.as_str()
    )
}
