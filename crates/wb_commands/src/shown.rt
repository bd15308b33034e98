//! Commands about what is shown.
ghost use Rattle.serde_json.specs.View.{view};
ghost use Rattle.wb_json.specs.Form.{Gives};
ghost use Rattle.wb_commands.specs.Forms.{filter_of, hide_of, key_alone_of, layer_of, move_of, reveal_of, show_of, unshow_of};

use crate::members::{key_at, key_or_null_at, name_at, object_at};
use std::alloc::Global;
use wb_diagram::{Action, AnyKey};
use wb_json::{Value, Wrong, listed, needed};

pub(crate) fn read_move(alloc: Global, value: &Value) -> Result<Action, Wrong>
    ensures { Gives result (move_of (view value.now)) }
{
    listed(alloc, value, &["command", "revision", "key", "x", "y"])?;
    let key = key_at(alloc, value, "key")?;
    let x = needed(alloc, value, "x")?;
    let y = needed(alloc, value, "y")?;
    Ok(Action::Move { key, x, y })
}

pub(crate) fn read_show(alloc: Global, value: &Value) -> Result<Action, Wrong>
    ensures { Gives result (show_of (view value.now)) }
{
    listed(
        alloc,
        value,
        &["command", "revision", "parent", "mapping", "object"],
    )?;
    let object = object_at(alloc, value, "object")?;
    let mapping = name_at(alloc, value, "mapping")?;
    let parent = key_or_null_at(alloc, value, "parent")?;
    Ok(Action::Show {
        parent,
        mapping,
        object,
    })
}

/// The key of a command that gives nothing else.
fn read_key_alone(alloc: Global, value: &Value) -> Result<AnyKey, Wrong>
    ensures { Gives result (key_alone_of (view value.now)) }
{
    listed(alloc, value, &["command", "revision", "key"])?;
    key_at(alloc, value, "key")
}

pub(crate) fn read_unshow(alloc: Global, value: &Value) -> Result<Action, Wrong>
    ensures { Gives result (unshow_of (view value.now)) }
{
    let key = read_key_alone(alloc, value)?;
    Ok(Action::Unshow { key })
}

pub(crate) fn read_hide(alloc: Global, value: &Value) -> Result<Action, Wrong>
    ensures { Gives result (hide_of (view value.now)) }
{
    let key = read_key_alone(alloc, value)?;
    Ok(Action::Hide { key })
}

pub(crate) fn read_reveal(alloc: Global, value: &Value) -> Result<Action, Wrong>
    ensures { Gives result (reveal_of (view value.now)) }
{
    let key = read_key_alone(alloc, value)?;
    Ok(Action::Reveal { key })
}

pub(crate) fn read_layer(alloc: Global, value: &Value) -> Result<Action, Wrong>
    ensures { Gives result (layer_of (view value.now)) }
{
    listed(alloc, value, &["command", "revision", "layer", "active"])?;
    let active = needed(alloc, value, "active")?;
    let layer = name_at(alloc, value, "layer")?;
    Ok(Action::Layer { layer, active })
}

pub(crate) fn read_filter(alloc: Global, value: &Value) -> Result<Action, Wrong>
    ensures { Gives result (filter_of (view value.now)) }
{
    listed(alloc, value, &["command", "revision", "filter", "active"])?;
    let active = needed(alloc, value, "active")?;
    let filter = name_at(alloc, value, "filter")?;
    Ok(Action::Filter { filter, active })
}
