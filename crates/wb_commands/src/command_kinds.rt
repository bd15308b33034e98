use std::alloc::Global;
use wb_json::{Form, Value, Wrong, chosen};

/// The commands, each of which has its members.
#[derive(Clone, Copy)]
pub(crate) enum CommandKind {
    Create,
    Set,
    Add,
    Take,
    Unset,
    MoveTo,
    Remove,
    Tool,
    Move,
    Arrange,
    Undo,
    Redo,
    Show,
    Unshow,
    Hide,
    Reveal,
    Layer,
    Filter,
}

impl Form for CommandKind {
    ghost use Rattle.wb_commands.specs.Forms.{command_kind_of};

    ghost form = { command_kind_of };

    fn read(alloc: Global, value: &Value) -> Result<CommandKind, Wrong> {
        chosen(
            alloc,
            value,
            &[
                ("create", CommandKind::Create),
                ("set", CommandKind::Set),
                ("add", CommandKind::Add),
                ("take", CommandKind::Take),
                ("unset", CommandKind::Unset),
                ("move_to", CommandKind::MoveTo),
                ("remove", CommandKind::Remove),
                ("tool", CommandKind::Tool),
                ("move", CommandKind::Move),
                ("arrange", CommandKind::Arrange),
                ("undo", CommandKind::Undo),
                ("redo", CommandKind::Redo),
                ("show", CommandKind::Show),
                ("unshow", CommandKind::Unshow),
                ("hide", CommandKind::Hide),
                ("reveal", CommandKind::Reveal),
                ("layer", CommandKind::Layer),
                ("filter", CommandKind::Filter),
            ],
        )
    }
}
