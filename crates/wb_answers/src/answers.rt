ghost use Rattle.std.specs.Prelude.{◌≡◌, IfOk, [], ◌∷◌, false};
ghost use Rattle.wb_aql_values.specs.Bounds.{IsBounded};
ghost use Rattle.wb_aql_values.specs.Runs.{answered};
ghost use Rattle.wb_answers.specs.Seen.{Asks};
ghost use Rattle.wb_answers.specs.declared.answers.Stop.TheVariants.{NoMemory};

use std::alloc::{AllocError, AllocFailed, Global};
use wb_aql_values::Answer;
use wb_diagram::Unit;

/// Why there is no answer.
#[derive(Clone, Copy, Debug)]
pub enum Stop {
    /// There are too many units, or too many elements, or all answers together weigh too much.
    TooLarge,
    NoMemory,
}

impl From<AllocError> for Stop {
    ghost from_gives = { λ _ e. e ≡ NoMemory };

    fn from(_error: AllocError) -> Stop {
        Stop::NoMemory
    }
}

impl<T: Drop> From<AllocFailed<T>> for Stop {
    ghost from_gives = { λ _ e. e ≡ NoMemory };

    fn from(_error: AllocFailed<T>) -> Stop {
        Stop::NoMemory
    }
}

/// Where the answers of units come from.
pub trait Answers {
    ghost use Rattle.wb_answers.specs.Seen.{Seen};

    ghost seen: { Self → Seen };

    /// The answer of a unit, which is then asked.
    fn answer(&mut self, alloc: Global, unit: &Unit) -> Result<Answer, Stop>
        requires { (seen self.old).over ≡ false }
        ensures value { IfOk result (λ a. a ≡ (seen self.old).told unit.now) }
        ensures bounded { IfOk result (λ a. IfOk (answered a) (IsBounded (seen self.old).metamodel)) }
        ensures asks { Asks (seen self.old) (unit.now ∷ []) result (seen self.new) };
}
