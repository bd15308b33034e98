ghost use Rattle.std.specs.Prelude.{◌≡◌};

use std::alloc::AllocError;
use wb_metamodel::ObjectId;

/// A condition of a valid model that does not hold, by its number.
#[derive(Clone, Copy)]
pub enum Flaw {
    /// An object shows it.
    At(u8, ObjectId),
    /// The model as a whole shows it.
    Whole(u8),
    NoMemory,
}

impl From<AllocError> for Flaw {
    ghost use Rattle.wb_validity.specs.declared.flaws.Flaw.TheVariants.{NoMemory};

    ghost from_gives = { λ _ e. e ≡ NoMemory };

    fn from(_error: AllocError) -> Flaw {
        Flaw::NoMemory
    }
}
