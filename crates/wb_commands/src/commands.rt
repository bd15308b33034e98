ghost use Rattle.serde_json.specs.View.{view};
ghost use Rattle.wb_json.specs.Form.{Gives};
ghost use Rattle.wb_commands.specs.Forms.{action_of, alone_of, command_of};

use crate::command_kinds::CommandKind;
use crate::edits::{
    read_add, read_create, read_move_to, read_remove, read_set, read_take, read_unset,
};
use crate::revisions::Revision;
use crate::shown::{
    read_filter, read_hide, read_layer, read_move, read_reveal, read_show, read_unshow,
};
use crate::tools::read_tool;
use std::alloc::Global;
use wb_diagram::{Action, Command};
use wb_json::{Value, Wrong, listed, needed};

/// The command that a value is.
#[tactic(auto, unfolding(crate::specs::Forms::command_of))]
pub(crate) fn read_value(alloc: Global, value: &Value) -> Result<Command, Wrong>
    ensures { Gives result (command_of (view value.now)) }
{
    let kind = needed(alloc, value, "command")?;
    let action = read_action(alloc, value, kind)?;
    let revision: Revision = needed(alloc, value, "revision")?;
    Ok(Command {
        revision: revision.number(),
        action,
    })
}

/// What a body of this command asks for.
#[tactic(auto, unfolding(crate::specs::Forms::action_of))]
fn read_action(alloc: Global, value: &Value, kind: CommandKind) -> Result<Action, Wrong>
    ensures { Gives result (action_of kind (view value.now)) }
{
    match kind {
        CommandKind::Create => read_create(alloc, value),
        CommandKind::Set => read_set(alloc, value),
        CommandKind::Add => read_add(alloc, value),
        CommandKind::Take => read_take(alloc, value),
        CommandKind::Unset => read_unset(alloc, value),
        CommandKind::MoveTo => read_move_to(alloc, value),
        CommandKind::Remove => read_remove(alloc, value),
        CommandKind::Tool => read_tool(alloc, value),
        CommandKind::Move => read_move(alloc, value),
        CommandKind::Arrange => read_alone(alloc, value, Action::Arrange),
        CommandKind::Undo => read_alone(alloc, value, Action::Undo),
        CommandKind::Redo => read_alone(alloc, value, Action::Redo),
        CommandKind::Show => read_show(alloc, value),
        CommandKind::Unshow => read_unshow(alloc, value),
        CommandKind::Hide => read_hide(alloc, value),
        CommandKind::Reveal => read_reveal(alloc, value),
        CommandKind::Layer => read_layer(alloc, value),
        CommandKind::Filter => read_filter(alloc, value),
    }
}

/// A command with no members of its own.
fn read_alone(alloc: Global, value: &Value, action: Action) -> Result<Action, Wrong>
    ensures { Gives result (alone_of action (view value.now)) }
{
    match listed(alloc, value, &["command", "revision"]) {
        Ok(()) => Ok(action),
        Err(wrong) => Err(wrong),
    }
}
