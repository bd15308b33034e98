ghost use Rattle.std.specs.Prelude.{◌≡◌};
ghost use Rattle.wb_aql_values.specs.declared.faults.Halt.TheVariants.{NoMemory};

use std::alloc::{AllocError, AllocFailed};

/// What an expression has in place of a value.
#[derive(Clone, Copy, Debug)]
pub enum Fault {
    NotAnObject,
    /// The class has no feature of that name.
    NoFeature,
    NotBool,
    NotInt,
    /// A result outside 64 signed bits.
    Overflow,
    DivideByZero,
    /// A collection above 65,536 members.
    TooLong,
    /// A text form, or a text that was joined, above 65,536 bytes.
    TextTooLong,
    DeadObject,
}

/// Why an evaluation gives no value.
#[derive(Clone, Copy)]
pub enum Halt {
    Fault(Fault),
    NoMemory,
}

impl From<AllocError> for Halt {
    ghost from_gives = { λ _ e. e ≡ NoMemory };

    fn from(_error: AllocError) -> Halt {
        Halt::NoMemory
    }
}

impl<T: Drop> From<AllocFailed<T>> for Halt {
    ghost from_gives = { λ _ e. e ≡ NoMemory };

    fn from(_error: AllocFailed<T>) -> Halt {
        Halt::NoMemory
    }
}
