ghost use Rattle.std.specs.Prelude.{◌≡◌};
ghost use Rattle.wb_aql_grammar.specs.declared.unread.Unread.TheVariants.{NoMemory};

use std::alloc::{AllocError, AllocFailed};
use wb_aql_tokens::Token;

/// Why a phrase was not read, with the tokens that were left.
#[derive(Drop)]
pub enum Unread<'a> {
    /// The next token cannot go on.
    Wrong(&'a [Token]),
    /// The next token opens one more than may be open.
    Deep(&'a [Token]),
    NoMemory,
}

impl From<AllocError> for Unread<'_> {
    ghost from_gives = { λ _ e. e ≡ NoMemory };

    fn from(_error: AllocError) -> Self {
        Unread::NoMemory
    }
}

impl<T: Drop> From<AllocFailed<T>> for Unread<'_> {
    ghost from_gives = { λ _ e. e ≡ NoMemory };

    fn from(_error: AllocFailed<T>) -> Self {
        Unread::NoMemory
    }
}
