ghost use Rattle.std.specs.Prelude.{◌≡◌};
ghost use Rattle.wb_expressions.specs.declared.refusal.ExprRefusal.TheVariants.{NoMemory};

use crate::problem::ProblemCode;
use std::alloc::AllocError;
use wb_base::Text;

/// Why a text is no expression whose names are known.
pub enum ExprRefusal {
    /// The problem, with its detail: the offset in decimal, counted from behind `aql:`, or the name that is not known.
    At(ProblemCode, Text),
    NoMemory,
}

impl Drop for ExprRefusal {
    fn drop(self) {
        match self {
            ExprRefusal::At(_code, _detail) => {}
            ExprRefusal::NoMemory => {}
        }
    }
}

impl From<AllocError> for ExprRefusal {
    ghost from_gives = { λ _ e. e ≡ NoMemory };

    fn from(_error: AllocError) -> ExprRefusal {
        ExprRefusal::NoMemory
    }
}
