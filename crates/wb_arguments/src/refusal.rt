ghost use Rattle.std.specs.Prelude.{◌≡◌};
ghost use Rattle.wb_arguments.specs.declared.refusal.ArgumentRefusal.TheVariants.{NoMemory};

use std::alloc::{AllocError, AllocFailed};

/// Why a tool is not run with these arguments; the first that holds, in this order.
#[derive(Clone, Copy)]
pub enum ArgumentRefusal {
    /// No tool has the name.
    UnknownTool,
    /// The arguments are not exactly those of the tool's kind, or the new text is above 65,536 bytes.
    BadArguments,
    /// A key is not declared, or is a node's where an edge's is wanted or the reverse.
    UnknownElement,
    NoMemory,
}

impl From<AllocError> for ArgumentRefusal {
    ghost from_gives = { λ _ e. e ≡ NoMemory };

    fn from(_error: AllocError) -> Self {
        ArgumentRefusal::NoMemory
    }
}

impl<T: Drop> From<AllocFailed<T>> for ArgumentRefusal {
    ghost from_gives = { λ _ e. e ≡ NoMemory };

    fn from(_error: AllocFailed<T>) -> Self {
        ArgumentRefusal::NoMemory
    }
}
