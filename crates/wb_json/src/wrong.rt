ghost use Rattle.std.specs.Prelude.{◌≡◌, []};
ghost use Rattle.wb_json.specs.declared.wrong.Wrong.TheVariants.{At, NoMemory};

use std::alloc::{AllocError, AllocFailed, Global};
use wb_base::Text;

/// Why a value could not be read.
#[derive(Debug, Drop)]
pub enum Wrong {
    /// It is not of the form. The place is a JSON Pointer (RFC 6901) to the first wrong part.
    At(Text),
    NoMemory,
}

impl Wrong {
    /// The value itself is wrong.
    pub fn here(alloc: Global) -> Wrong
        ensures { result ≡ At [] }
    {
        Wrong::At(Text::from_string(String::new(alloc)))
    }
}

impl From<AllocError> for Wrong {
    ghost from_gives = { λ _ wrong. wrong ≡ NoMemory };

    fn from(_error: AllocError) -> Wrong {
        Wrong::NoMemory
    }
}

impl<T: Drop> From<AllocFailed<T>> for Wrong {
    ghost from_gives = { λ _ wrong. wrong ≡ NoMemory };

    fn from(_failed: AllocFailed<T>) -> Wrong {
        Wrong::NoMemory
    }
}
