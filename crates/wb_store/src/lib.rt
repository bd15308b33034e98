//! Objects of a metamodel's classes, with the values of their features, whether they make a valid model or not.
#![tactic(auto)]

mod arranged;
mod containment;
mod content;
mod copies;
mod extent;
mod holding;
mod inverse;
mod links;
mod marks;
mod object_sets;
mod objects;
mod parts;
mod records;
mod removals;
mod scalars;
mod slots;
mod slots_of_objects;
mod store;

pub use containment::Link;
pub use holding::{Holding, holders};
pub use inverse::is_plain;
pub use links::containment_links;
pub use marks::first_marked;
pub use object_sets::ObjectSet;
pub use parts::{Part, SlotPart};
pub use records::{Record, Slot, has_object, is_containment, place_of_object};
pub use scalars::{Cell, Place, Scalar};
pub use slots::alone;
pub use store::Store;
