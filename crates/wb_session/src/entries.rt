use crate::turn::Turn;
use std::alloc::{AllocError, Global};
use wb_base::Duplicate;
use wb_marks::Marks;
use wb_metamodel::ObjectId;
use wb_model::Model;

/// What the history keeps of a state.
#[derive(Drop)]
pub(crate) struct Entry {
    pub(crate) model: Model,
    pub(crate) marks: Marks,
}

/// A state that is tried.
#[derive(Drop)]
pub(crate) struct TriedState {
    pub(crate) model: Model,
    pub(crate) marks: Marks,
    /// The object that was made.
    pub(crate) created: Option<ObjectId>,
    pub(crate) turn: Turn,
}

impl Duplicate for Entry {
    fn copy(&self, alloc: Global) -> Result<Entry, AllocError> {
        Ok(Entry {
            model: self.model.copy(alloc)?,
            marks: self.marks.copy(alloc)?,
        })
    }
}
