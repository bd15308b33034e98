//! Metamodels: classes with supertypes, features and enumerations, after Ecore.
#![tactic(auto)]

mod checking;
mod hierarchy;
mod inherited;
mod laws;
mod lookup;
mod metamodel;
mod reading;
mod tables;

pub use laws::features_are_inherited;
pub use metamodel::Metamodel;
pub use reading::read_metamodel;
pub use wb_base::Text;
pub use wb_ecore::{
    ClassId, EnumId, Feature, FeatureId, Kind, MetamodelCode, MetamodelRefusal, ObjectId,
};
