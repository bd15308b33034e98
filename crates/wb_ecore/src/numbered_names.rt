ghost use Rattle.std.specs.Prelude.{◌≡◌, List, ℕ, Option, Some, None, IfOk, position, if◌then◌else◌};

use crate::classes::{Class, Enumeration};
use crate::document::{ClassPart, EnumPart, FeaturePart};
use crate::features::Feature;
use std::alloc::{AllocError, Global};
use std::collections::BTreeMap;
use wb_base::Text;
use wb_json::Name;

/// What has a name.
pub trait Named {
    ghost name_of: { Self → List ℕ };

    fn name(&self) -> &[u8]
        ensures { result.now ≡ name_of self.now };
}

impl Named for Text {
    ghost name_of = { λ text. text };

    fn name(&self) -> &[u8] {
        self.as_slice()
    }
}

impl Named for Class {
    ghost name_of = { λ class. class.name };

    fn name(&self) -> &[u8] {
        self.name.as_slice()
    }
}

impl Named for Enumeration {
    ghost name_of = { λ enumeration. enumeration.name };

    fn name(&self) -> &[u8] {
        self.name.as_slice()
    }
}

impl Named for Feature {
    ghost name_of = { λ feature. feature.name };

    fn name(&self) -> &[u8] {
        self.name.as_slice()
    }
}

impl Named for Name {
    ghost name_of = { λ name. name };

    fn name(&self) -> &[u8] {
        self.as_str().as_bytes()
    }
}

impl Named for ClassPart {
    ghost name_of = { λ part. part.name };

    fn name(&self) -> &[u8] {
        self.name.as_str().as_bytes()
    }
}

impl Named for EnumPart {
    ghost name_of = { λ part. part.name };

    fn name(&self) -> &[u8] {
        self.name.as_str().as_bytes()
    }
}

impl Named for FeaturePart {
    ghost name_of = { λ part. part.name };

    fn name(&self) -> &[u8] {
        self.name.as_str().as_bytes()
    }
}

/// Names, each with a number.
#[derive(Drop)]
pub struct NumberedNames {
    numbers: BTreeMap<Vec<u8>, u32>,
}

impl NumberedNames {
    ghost use Rattle.std.specs.Option.{option_or};
    ghost use Rattle.wb_ecore.specs.Naming.{same_name};
    ghost use Rattle.wb_ecore.specs.invariants.NumberedNames.{number_of};

    pub fn new(alloc: Global) -> NumberedNames
        ensures { (name : List ℕ) → number_of result name ≡ None }
    {
        NumberedNames {
            numbers: BTreeMap::new(alloc),
        }
    }

    /// The number of a name.
    pub fn get(&self, name: &[u8]) -> Option<u32>
        ensures { result ≡ number_of self.now name.now }
    {
        self.numbers.get(name).copied()
    }

    /// Gives a name its number, unless it has one already.
    pub fn add(&mut self, alloc: Global, name: &[u8], number: u32) -> Result<(), AllocError>
        ensures { IfOk result (λ _. (other : List ℕ) → number_of self.new other
            ≡ option_or (number_of self.old other) (if same_name name.now other then Some number else None)) }
    {
        if self.numbers.get(name).is_none() {
            self.numbers.insert(Vec::from_slice(alloc, name)?, number)?;
        }
        Ok(())
    }

    /// The names of these items, each with its first place.
    /// A count that no `u32` holds is taken as want of memory.
    pub fn of<T: Named>(alloc: Global, items: &[T]) -> Result<NumberedNames, AllocError>
        ensures { IfOk result (λ names. (name : List ℕ) → number_of names name
            ≡ position (λ item. same_name (T.name_of item) name) items.now) }
    {
        if items.len() > u32::MAX as usize {
            return Err(AllocError);
        }
        let mut names = NumberedNames::new(alloc);
        for (number, item) in items.iter().enumerate() {
            names.add(alloc, item.name(), number as u32)?;
        }
        Ok(names)
    }
}
