ghost use Rattle.std.specs.Prelude.{◌≡◌};
ghost use Rattle.wb_commands.specs.declared.refusal.BodyRefusal.TheVariants.{NoMemory};

use std::alloc::AllocError;

/// Why a body gives no command.
#[derive(Clone, Copy, Debug, PartialEq, Eq)]
pub enum BodyRefusal {
    /// It is not of the form of a command.
    BadBody,
    NoMemory,
}

impl From<AllocError> for BodyRefusal {
    ghost from_gives = { λ _ refusal. refusal ≡ NoMemory };

    fn from(_error: AllocError) -> BodyRefusal {
        BodyRefusal::NoMemory
    }
}
