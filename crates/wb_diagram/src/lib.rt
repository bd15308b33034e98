//! Diagrams as they are served: the keys of their elements and edges, the units that are evaluated for them, and their JSON text.
#![tactic(auto)]

mod commands;
mod diagrams;
mod edges;
mod elements;
mod key_reader;
mod key_texts;
mod keys;
mod problems;
mod unit_texts;
mod units;
mod values;
mod writing;

pub use commands::{Action, Arguments, Command, End, Given, NamedSlot};
pub use diagrams::{Diagram, Edge, Element, Look, Problem};
pub use edges::write_edge;
pub use elements::write_element;
pub use key_reader::{read_key, spells_one_key};
pub use key_texts::write_key;
pub use keys::{AnyKey, EdgeKey, Key, Pair};
pub use units::Unit;
pub use wb_base::{List, Text};
pub use wb_metamodel::ObjectId;
pub use writing::write_diagram;
