use crate::classes::{Class, Enumeration};
use crate::features::Feature;
use std::alloc::{AllocError, Global};
use wb_base::{Duplicate, List, Text};

/// A package after Ecore, which is what a metamodel is: its classes, their features over all classes, and its enumerations.
pub struct Package {
    pub package_name: Text,
    pub classes: List<Class>,
    pub features: List<Feature>,
    pub enumerations: List<Enumeration>,
}

impl Drop for Package {
    fn drop(self) {
        let Package {
            package_name: _package_name,
            classes: _classes,
            features: _features,
            enumerations: _enumerations,
        } = self;
    }
}

impl Duplicate for Package {
    fn copy(&self, alloc: Global) -> Result<Package, AllocError> {
        Ok(Package {
            package_name: self.package_name.copy(alloc)?,
            classes: self.classes.copy(alloc)?,
            features: self.features.copy(alloc)?,
            enumerations: self.enumerations.copy(alloc)?,
        })
    }
}
