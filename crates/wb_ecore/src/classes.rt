use crate::numbers::ClassId;
use std::alloc::{AllocError, Global};
use wb_base::{Duplicate, List, Text};

/// A class: its name, whether it is abstract, and its direct supertypes in order.
#[derive(Drop)]
pub struct Class {
    pub name: Text,
    pub is_abstract: bool,
    pub supertypes: List<ClassId>,
}

/// An enumeration: its name and its literals in order.
#[derive(Drop)]
pub struct Enumeration {
    pub name: Text,
    pub literals: List<Text>,
}

impl Duplicate for Class {
    fn copy(&self, alloc: Global) -> Result<Class, AllocError> {
        Ok(Class {
            name: self.name.copy(alloc)?,
            is_abstract: self.is_abstract,
            supertypes: self.supertypes.copy(alloc)?,
        })
    }
}

impl Duplicate for Enumeration {
    fn copy(&self, alloc: Global) -> Result<Enumeration, AllocError> {
        Ok(Enumeration {
            name: self.name.copy(alloc)?,
            literals: self.literals.copy(alloc)?,
        })
    }
}
