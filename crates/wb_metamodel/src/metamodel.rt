ghost use Rattle.std.specs.Prelude.{◌≡◌, ◌<◌, ◌↔◌, IsTrue, Option, Some, IfSome, option_map, length, slice_get};
ghost use Rattle.wb_metamodel.specs.Metamodel as definition;
ghost use Rattle.wb_metamodel.specs.WellFormed.{WellFormed, IsWellFormed};
ghost use Rattle.wb_metamodel.specs.invariants.Tables.{TablesOf};

use crate::lookup::Tables;
use crate::tables::tables;
use std::alloc::{AllocError, Global};
use std::marker::Model;
use wb_base::{Duplicate, Text};
use wb_ecore::{ClassId, EnumId, Feature, FeatureId, Package};

/// A metamodel: classes with supertypes, features and enumerations.
pub struct Metamodel {
    elements: Package,
    tables: Tables,
}

impl Drop for Metamodel {
    fn drop(self) {
        let Metamodel {
            elements: _package,
            tables: _tables,
        } = self;
    }
}

impl Model for Metamodel {
    ghost use Rattle.wb_metamodel.specs.Metamodel as definition;

    ghost Value = { definition.Metamodel };

    ghost use Rattle.wb_metamodel.specs.invariants.Inside.{HasTables};

    ghost view = { λ m. m.elements };

    ghost invariant = { HasTables };
}

impl Metamodel {
    /// The metamodel of this content.
    pub(crate) fn new(elements: Package, tables: Tables) -> Metamodel
        requires well_formed { IsWellFormed elements }
        requires tables { TablesOf elements tables }
        ensures { result ≡ elements }
    {
        Metamodel { elements, tables }
    }

    /// What is true of every metamodel.
    pub fn well_formed(&self)
        ensures { WellFormed self.now }
    {
        let _ = &self.elements.package_name;
    }

    pub fn package(&self) -> &Text
        ensures { result.now ≡ self.now.package_name }
    {
        &self.elements.package_name
    }

    pub fn class_count(&self) -> u32
        ensures { result ≡ length self.now.classes }
    {
        self.elements.classes.len() as u32
    }

    pub fn feature_count(&self) -> u32
        ensures { result ≡ length self.now.features }
    {
        self.elements.features.len() as u32
    }

    pub fn enum_count(&self) -> u32
        ensures { result ≡ length self.now.enumerations }
    {
        self.elements.enumerations.len() as u32
    }

    pub fn class_name(&self, c: ClassId) -> &Text
        requires { c < length self.now.classes }
        ensures { option_map (λ class. class.name) (definition.class_at self.now c) ≡ Some result.now }
    {
        &self.elements.classes.as_slice()[c.0 as usize].name
    }

    pub fn is_abstract(&self, c: ClassId) -> bool
        requires { c < length self.now.classes }
        ensures { option_map (λ class. class.is_abstract) (definition.class_at self.now c) ≡ Some result }
    {
        self.elements.classes.as_slice()[c.0 as usize].is_abstract
    }

    pub fn feature(&self, f: FeatureId) -> &Feature
        requires { f < length self.now.features }
        ensures { definition.feature_at self.now f ≡ Some result.now }
    {
        &self.elements.features.as_slice()[f.0 as usize]
    }

    pub fn literal_count(&self, e: EnumId) -> u32
        requires { e < length self.now.enumerations }
        ensures { result ≡ length (definition.literals_of self.now e) }
    {
        self.elements.enumerations.as_slice()[e.0 as usize]
            .literals
            .len() as u32
    }

    pub fn literal_name(&self, e: EnumId, literal: u32) -> &Text
        requires enumeration { e < length self.now.enumerations }
        requires literal { literal < length (definition.literals_of self.now e) }
        ensures { slice_get (definition.literals_of self.now e) literal ≡ Some result.now }
    {
        &self.elements.enumerations.as_slice()[e.0 as usize]
            .literals
            .as_slice()[literal as usize]
    }

    #[tactic(auto, using(crate::proofs::Ranges::class_known))]
    pub fn class_named(&self, name: &[u8]) -> Option<ClassId>
        ensures named { result ≡ definition.class_named self.now name.now }
        ensures known { IfSome result (λ class. class < length self.now.classes) }
    {
        self.tables
            .class_names
            .get(name)
            .map(|number| ClassId(number))
    }

    #[tactic(auto, using(crate::proofs::Ranges::enum_known))]
    pub fn enum_named(&self, name: &[u8]) -> Option<EnumId>
        ensures named { result ≡ definition.enum_named self.now name.now }
        ensures known { IfSome result (λ enumeration. enumeration < length self.now.enumerations) }
    {
        self.tables
            .enum_names
            .get(name)
            .map(|number| EnumId(number))
    }

    /// The feature of that name among all features of a class, inherited ones included.
    pub fn feature_named(&self, class: ClassId, name: &[u8]) -> Option<FeatureId>
        requires { class < length self.now.classes }
        ensures named { result ≡ definition.feature_named self.now class name.now }
        ensures known { IfSome result (λ feature. feature < length self.now.features) }
    {
        match self.tables.feature_names.get(name) {
            None => None,
            Some(place) => {
                self.tables.features_by_name.as_slice()[class.0 as usize].as_slice()[place as usize]
            }
        }
    }

    pub fn literal_named(&self, e: EnumId, name: &[u8]) -> Option<u32>
        requires { e < length self.now.enumerations }
        ensures named { result ≡ definition.literal_named self.now e name.now }
        ensures known { IfSome result (λ literal. literal < length (definition.literals_of self.now e)) }
    {
        self.tables.literal_names.as_slice()[e.0 as usize].get(name)
    }

    /// Whether a path of supertypes, also the empty one, leads from `a` to `b`.
    pub fn conforms(&self, a: ClassId, b: ClassId) -> bool
        requires from { a < length self.now.classes }
        requires to { b < length self.now.classes }
        ensures value { result ≡ definition.conforms self.now a b }
        ensures path { IsTrue result ↔ definition.Conforms self.now a b }
    {
        a.0 == b.0 || self.tables.below.as_slice()[a.0 as usize].as_slice()[b.0 as usize]
    }

    /// The features of a class: inherited ones first, supertype by supertype, own ones last.
    pub fn features_of(&self, c: ClassId) -> &[FeatureId]
        requires { c < length self.now.classes }
        ensures { result.now ≡ definition.features_of self.now c }
    {
        self.tables.class_features.as_slice()[c.0 as usize].as_slice()
    }
}

impl Duplicate for Metamodel {
    fn copy(&self, alloc: Global) -> Result<Metamodel, AllocError> {
        let elements = self.elements.copy(alloc)?;
        let below = self.tables.below.copy(alloc)?;
        let tables = tables(alloc, &elements, below)?;
        Ok(Metamodel { elements, tables })
    }
}
