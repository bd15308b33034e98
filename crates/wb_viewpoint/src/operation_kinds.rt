ghost use Rattle.std.specs.Prelude.{◌≡◌};
ghost use Rattle.wb_viewpoint.specs.OperationForms.{needs_inside};

use std::alloc::Global;
use wb_json::{Form, Value, Wrong, chosen};

/// The sorts of operations, each of which has its form.
#[derive(Clone, Copy)]
pub(crate) enum OperationKind {
    ChangeContext,
    CreateInstance,
    Set,
    Unset,
    Move,
    Remove,
    For,
    If,
}

impl Form for OperationKind {
    ghost use Rattle.wb_viewpoint.specs.OperationForms.{operation_kind_of};

    ghost form = { operation_kind_of };

    fn read(alloc: Global, value: &Value) -> Result<OperationKind, Wrong> {
        chosen(
            alloc,
            value,
            &[
                ("change_context", OperationKind::ChangeContext),
                ("create_instance", OperationKind::CreateInstance),
                ("set", OperationKind::Set),
                ("unset", OperationKind::Unset),
                ("move", OperationKind::Move),
                ("remove", OperationKind::Remove),
                ("for", OperationKind::For),
                ("if", OperationKind::If),
            ],
        )
    }
}

impl OperationKind {
    /// Must there be operations inside?
    pub(crate) fn needs_inside(self) -> bool
        ensures { result ≡ needs_inside self }
    {
        match self {
            OperationKind::ChangeContext | OperationKind::For | OperationKind::If => true,
            OperationKind::CreateInstance
            | OperationKind::Set
            | OperationKind::Unset
            | OperationKind::Move
            | OperationKind::Remove => false,
        }
    }
}
