//! The durable keeper: rows in a SQLite file.
#![tactic(auto)]

mod database;
mod refusal;
mod sqlite_keeper;

pub use sqlite_keeper::SqliteKeeper;
