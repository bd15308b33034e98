ghost use Rattle.std.specs.Prelude.{ℕ};

use std::alloc::{AllocError, Global};
use std::marker::Model;
use wb_base::Duplicate;

/// The number of a class: its place in the document, from 0.
#[derive(Clone, Copy, Debug, PartialEq, Eq, Hash)]
pub struct ClassId(pub u32);

impl Model for ClassId {
    ghost Value = { ℕ };

    ghost view = { λ c. c.0 };

    ghost inverse = { λ n. record { 0 = n } };
}

/// The number of a feature: its place in the document, counted over all classes, from 0.
#[derive(Clone, Copy, Debug, PartialEq, Eq, Hash)]
pub struct FeatureId(pub u32);

impl Model for FeatureId {
    ghost Value = { ℕ };

    ghost view = { λ f. f.0 };

    ghost inverse = { λ n. record { 0 = n } };
}

/// The number of an enumeration: its place in the document, from 0.
#[derive(Clone, Copy, Debug, PartialEq, Eq, Hash)]
pub struct EnumId(pub u32);

impl Model for EnumId {
    ghost Value = { ℕ };

    ghost view = { λ e. e.0 };

    ghost inverse = { λ n. record { 0 = n } };
}

/// The number of an object. No two objects of one model ever have the same.
#[derive(Clone, Copy, Debug, PartialEq, Eq, PartialOrd, Ord, Hash)]
pub struct ObjectId(pub u32);

impl Model for ObjectId {
    ghost Value = { ℕ };

    ghost view = { λ o. o.0 };

    ghost inverse = { λ n. record { 0 = n } };
}

impl Duplicate for ClassId {
    fn copy(&self, _alloc: Global) -> Result<ClassId, AllocError> {
        Ok(*self)
    }
}
