//! JSON: reading a value of some form, or naming its first wrong place; and writing one.
#![tactic(auto)]

mod choices;
mod file_refusal;
mod form;
mod member_names;
mod members;
mod names;
mod objects;
mod pointer;
mod sequences;
mod texts;
mod to_json;
mod wrong;

pub use choices::chosen;
pub use file_refusal::{FileRefusal, at_root, coded};
pub use form::Form;
pub use member_names::listed;
pub use members::Members;
pub use names::Name;
pub use objects::{has, list_or_empty, needed, optional};
pub use serde_json::Value;
pub use texts::{parse_json, write_json};
pub use to_json::{ToJson, to_text};
pub use wrong::Wrong;
