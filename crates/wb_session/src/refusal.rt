ghost use Rattle.std.specs.Prelude.{◌≡◌};
ghost use Rattle.wb_session.specs.Tries.{of_arguments, of_name};
ghost use Rattle.wb_session.specs.declared.refusal.Refusal.TheVariants.{NoMemory};

use std::alloc::{AllocError, AllocFailed};
use wb_arguments::ArgumentRefusal;
use wb_command_edits::NameRefusal;
use wb_model::ModelRefusal;
use wb_tools::ToolRefusal;

/// Why a command is refused; the first that holds, in this order.
#[derive(Clone, Copy)]
pub enum Refusal {
    /// The revision that the command names is not the present one.
    Stale,
    /// There is no further revision.
    RevisionsSpent,
    /// An object that is named, outside keys, is not live.
    UnknownObject,
    UnknownClass,
    /// The class of the object has no feature of the name.
    UnknownFeature,
    UnknownTool,
    /// The arguments are not exactly those of the tool's kind, or a text is too long.
    BadArguments,
    /// A key is not declared, or is of the other sort.
    UnknownElement,
    /// No layer beside the first has the name.
    UnknownLayer,
    UnknownFilter,
    /// Edges cannot be placed, and elements that a list has by its children.
    NotPlaceable,
    /// A coordinate is outside -1,000,000 to 1,000,000.
    PositionOutOfRange,
    /// The mapping is synchronised, or one of edges.
    NotUnsynchronised,
    /// There is no such mapping, or the element would not be declared with the mark either.
    NotCandidate,
    NothingToUndo,
    NothingToRedo,
    /// The tool's refusal, which is never want of memory.
    Tool(ToolRefusal),
    /// The edit's refusal, which is never want of memory.
    Edit(ModelRefusal),
    RootRemoved,
    DiagramTooLarge,
    NoMemory,
}

impl From<AllocError> for Refusal {
    ghost from_gives = { λ _ e. e ≡ NoMemory };

    fn from(_error: AllocError) -> Self {
        Refusal::NoMemory
    }
}

impl<T: Drop> From<AllocFailed<T>> for Refusal {
    ghost from_gives = { λ _ e. e ≡ NoMemory };

    fn from(_error: AllocFailed<T>) -> Self {
        Refusal::NoMemory
    }
}

impl From<NameRefusal> for Refusal {
    ghost from_gives = { λ n e. e ≡ of_name n };

    fn from(refusal: NameRefusal) -> Self {
        match refusal {
            NameRefusal::UnknownObject => Refusal::UnknownObject,
            NameRefusal::UnknownClass => Refusal::UnknownClass,
            NameRefusal::UnknownFeature => Refusal::UnknownFeature,
            NameRefusal::NoMemory => Refusal::NoMemory,
        }
    }
}

impl From<ArgumentRefusal> for Refusal {
    ghost from_gives = { λ a e. e ≡ of_arguments a };

    fn from(refusal: ArgumentRefusal) -> Self {
        match refusal {
            ArgumentRefusal::UnknownTool => Refusal::UnknownTool,
            ArgumentRefusal::BadArguments => Refusal::BadArguments,
            ArgumentRefusal::UnknownElement => Refusal::UnknownElement,
            ArgumentRefusal::NoMemory => Refusal::NoMemory,
        }
    }
}
