use crate::numbers::{ClassId, EnumId, FeatureId};
use std::alloc::{AllocError, Global};
use wb_base::{Duplicate, Text};

/// What the values of a feature are.
#[derive(Clone, Copy, Debug, PartialEq, Eq)]
pub enum Kind {
    /// Integers of 64 signed bits.
    Int,
    Bool,
    /// Texts of at most 65,536 bytes.
    Text,
    /// Literals of an enumeration.
    Enum(EnumId),
    /// Objects that conform to a class.
    Reference(ClassId),
}

/// An attribute or a reference of a class.
#[derive(Drop)]
pub struct Feature {
    pub name: Text,
    /// The class that declares it.
    pub owner: ClassId,
    pub kind: Kind,
    /// Does it hold a list of values, or at most one?
    pub many: bool,
    pub containment: bool,
    /// The feature at the other end, which changes together with this one.
    pub opposite: Option<FeatureId>,
}

impl Duplicate for Feature {
    fn copy(&self, alloc: Global) -> Result<Feature, AllocError> {
        Ok(Feature {
            name: self.name.copy(alloc)?,
            owner: self.owner,
            kind: self.kind,
            many: self.many,
            containment: self.containment,
            opposite: self.opposite,
        })
    }
}
