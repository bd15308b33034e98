ghost use Rattle.std.specs.Prelude.{◌≡◌, IfOk, OnErr};
ghost use Rattle.wb_outer.specs.Keeper.{KeeperTold, Loads, Commits};

use crate::bytes::Bytes;
use std::alloc::{AllocError, Global};
use wb_base::{Duplicate, List};

/// A kept row.
#[derive(Debug, Drop)]
pub struct Row {
    pub key: Bytes,
    pub text: Bytes,
}

impl Duplicate for Row {
    fn copy(&self, alloc: Global) -> Result<Row, AllocError> {
        Ok(Row {
            key: self.key.copy(alloc)?,
            text: self.text.copy(alloc)?,
        })
    }
}

/// One change of the kept rows.
#[derive(Debug, Drop)]
pub enum RowChange {
    /// Takes away every row of the row's key, and then puts the row.
    Put(Row),
    /// Takes away every row of a key.
    Erase(Bytes),
}

/// What a call for the kept rows answers.
#[derive(Debug, Drop)]
pub enum Loaded {
    Rows(List<Row>),
    Failed,
}

/// What a commit answers.
#[derive(Clone, Copy, Debug, PartialEq, Eq)]
pub enum Committed {
    Done,
    Failed,
    NoMemory,
}

/// Rows that outlive a run.
pub trait Keeper {
    ghost told: { Self → KeeperTold };

    /// The rows, ascending by key.
    fn load(&mut self, alloc: Global) -> Result<Loaded, AllocError>
        ensures loads { IfOk result (Loads (told self.old) (told self.new)) }
        ensures memory { OnErr result (told self.new ≡ told self.old) };

    /// Makes all changes at once, with the effect of making them in their order, or none of them.
    fn commit(&mut self, alloc: Global, changes: &[RowChange]) -> Committed
        ensures { Commits (told self.old) (told self.new) changes.now result };
}
