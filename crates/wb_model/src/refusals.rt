ghost use Rattle.std.specs.Prelude.{◌≡◌};
ghost use Rattle.wb_model.specs.declared.refusals.ModelRefusal.TheVariants.{NoMemory};

use std::alloc::{AllocError, AllocFailed};

/// Why an edit is refused; the first that holds, in this order.
#[derive(Clone, Copy)]
pub enum ModelRefusal {
    /// An object that is named, as a value too, is not live.
    UnknownObject,
    /// The class has no such feature, the feature is not of the edit's sort, or the value is not of its kind.
    KindMismatch,
    /// A second object in a containment slot of one, or a value more than a slot may have.
    UpperBound,
    /// An object would contain itself.
    ContainmentCycle,
    AbstractClass,
    TooManyObjects,
    /// There is no number left for a new object.
    IdsSpent,
    NoMemory,
}

impl From<AllocError> for ModelRefusal {
    ghost from_gives = { λ _ e. e ≡ NoMemory };

    fn from(_error: AllocError) -> Self {
        ModelRefusal::NoMemory
    }
}

impl<T: Drop> From<AllocFailed<T>> for ModelRefusal {
    ghost from_gives = { λ _ e. e ≡ NoMemory };

    fn from(_error: AllocFailed<T>) -> Self {
        ModelRefusal::NoMemory
    }
}
