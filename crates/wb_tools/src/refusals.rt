ghost use Rattle.std.specs.Prelude.{◌≡◌};
ghost use Rattle.wb_tools.specs.declared.refusals.ToolRefusal.TheVariants.{NoMemory};

use std::alloc::{AllocError, AllocFailed};
use wb_aql_values::Fault;
use wb_model::ModelRefusal;

/// Why a tool is refused. Places are counted from 1 through the operations, each before those inside it; 0 is the precondition.
#[derive(Clone, Copy)]
pub enum ToolRefusal {
    /// The precondition is false.
    PreconditionFalse,
    /// The expression at this place has this fault. A precondition or a condition that is no Bool has `NotBool`.
    Evaluation(u32, Fault),
    /// What is to be the context at this place is no object.
    BadContext(u32),
    /// An edit at this place is refused.
    Model(u32, ModelRefusal),
    /// More than 10,000 edits or 1,000,000 expressions are asked for.
    ToolTooLong,
    NoMemory,
}

impl From<AllocError> for ToolRefusal {
    ghost from_gives = { λ _ e. e ≡ NoMemory };

    fn from(_error: AllocError) -> Self {
        ToolRefusal::NoMemory
    }
}

impl<T: Drop> From<AllocFailed<T>> for ToolRefusal {
    ghost from_gives = { λ _ e. e ≡ NoMemory };

    fn from(_error: AllocFailed<T>) -> Self {
        ToolRefusal::NoMemory
    }
}
