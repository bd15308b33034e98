ghost use Rattle.std.specs.Prelude.{◌≡◌};
ghost use Rattle.wb_command_edits.specs.declared.refusal.NameRefusal.TheVariants.{NoMemory};

use std::alloc::AllocError;

/// Why the names of a command name nothing; the first that holds, in this order.
#[derive(Clone, Copy, Debug, PartialEq, Eq)]
pub enum NameRefusal {
    /// An object is not live, be it the one whose slot is meant, a value or the one that is moved or removed.
    UnknownObject,
    /// The metamodel has no class of the name.
    UnknownClass,
    /// The class of the object has no feature of the name.
    UnknownFeature,
    NoMemory,
}

impl From<AllocError> for NameRefusal {
    ghost from_gives = { λ _ e. e ≡ NoMemory };

    fn from(_error: AllocError) -> Self {
        NameRefusal::NoMemory
    }
}
