ghost use Rattle.std.specs.Prelude.{◌≡◌};
ghost use Rattle.wb_aql_check.specs.declared.refusal.CheckRefusal.TheVariants.{NoMemory};

use std::alloc::AllocError;
use wb_base::Text;

/// The first name of an expression that is not known.
pub enum CheckRefusal {
    /// No variable of this name is in scope.
    UnknownVariable(Text),
    /// No class has a feature of this name.
    UnknownFeature(Text),
    /// No service of this name is called by this arrow.
    UnknownService(Text),
    /// The service of this name takes other arguments, in number or in sort.
    WrongArity(Text),
    /// The class or enumeration of this name, its package or its literal is not there.
    UnknownType(Text),
    NoMemory,
}

impl Drop for CheckRefusal {
    fn drop(self) {
        match self {
            CheckRefusal::UnknownVariable(_name) => {}
            CheckRefusal::UnknownFeature(_name) => {}
            CheckRefusal::UnknownService(_name) => {}
            CheckRefusal::WrongArity(_name) => {}
            CheckRefusal::UnknownType(_name) => {}
            CheckRefusal::NoMemory => {}
        }
    }
}

impl From<AllocError> for CheckRefusal {
    ghost from_gives = { λ _ e. e ≡ NoMemory };

    fn from(_error: AllocError) -> CheckRefusal {
        CheckRefusal::NoMemory
    }
}
