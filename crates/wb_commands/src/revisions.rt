ghost use Rattle.std.specs.Prelude.{◌≡◌};

use std::alloc::Global;
use std::marker::Model;
use wb_json::{Form, Value, Wrong};

/// The largest revision: 2^53 - 1, which each reader of JSON keeps exact.
const LARGEST: u64 = 9_007_199_254_740_991;

/// The revision of a diagram.
#[derive(Drop)]
pub(crate) struct Revision(u64);

impl Model for Revision {
    ghost use Rattle.std.specs.Prelude.{ℕ};

    ghost Value = { ℕ };

    ghost view = { λ r. r.0 };
}

impl Revision {
    pub(crate) fn number(self) -> u64
        ensures { result ≡ self }
    {
        self.0
    }
}

impl Form for Revision {
    ghost use Rattle.wb_commands.specs.Forms.{revision_of};

    ghost form = { revision_of };

    fn read(alloc: Global, value: &Value) -> Result<Revision, Wrong> {
        match value.as_u64() {
            Some(number) if number <= LARGEST => Ok(Revision(number)),
            _ => Err(Wrong::here(alloc)),
        }
    }
}
