//! The elements of a metamodel, after Ecore: as a document has them, and with their names resolved.
#![tactic(auto)]

mod classes;
mod document;
mod features;
mod index;
mod numbered_names;
mod numbers;
mod packages;
mod refusal;
mod repeats;
mod resolving;
mod resolving_classes;
mod resolving_package;

pub use classes::{Class, Enumeration};
pub use document::Document;
pub use features::{Feature, Kind};
pub use numbered_names::{Named, NumberedNames};
pub use numbers::{ClassId, EnumId, FeatureId, ObjectId};
pub use packages::Package;
pub use refusal::{MetamodelCode, MetamodelRefusal};
pub use repeats::unrepeated_names;
pub use resolving_package::resolved;
