ghost use Rattle.std.specs.Prelude.{◌≡◌};
ghost use Rattle.wb_aql_grammar.specs.declared.refusal.ParseRefusal.TheVariants.{NoMemory};

use std::alloc::AllocError;
use thiserror::Error;

/// Why a text is no expression, with the offset of the byte at which that shows.
#[derive(Clone, Copy, Debug, Error)]
pub enum ParseRefusal {
    /// The token that starts here cannot go on, or the text ends too soon.
    #[error("syntax error at byte {0}")]
    Syntax(usize),
    /// The token that starts here is one opening, or one lambda, too many.
    #[error("too deep at byte {0}")]
    TooDeep(usize),
    #[error("out of memory")]
    NoMemory,
}

impl From<AllocError> for ParseRefusal {
    ghost from_gives = { λ _ e. e ≡ NoMemory };

    fn from(_error: AllocError) -> Self {
        ParseRefusal::NoMemory
    }
}
