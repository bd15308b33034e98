//! The files of cases and the models in files, for the programs of cases.
#![tactic(auto)]

mod models;
mod told;

pub use models::{file_in, model_in};
pub use told::{needed_file, told_file};
