ghost use Rattle.std.specs.Prelude.{◌≡◌, IfOk};

use crate::keys::{AnyKey, Key, Pair};
use std::alloc::{AllocError, Global};
use wb_base::Duplicate;

/// An expression of a viewpoint at a place of the diagram: what is evaluated, and kept, by itself.
#[derive(Debug, PartialEq, Eq, PartialOrd, Ord, Hash)]
pub enum Unit {
    /// The candidates of a mapping under an element, or under the diagram itself.
    Candidates { mapping: u32, parent: Option<Key> },
    /// The precondition of a candidate, by the key that it has as an element.
    Precondition { key: Key },
    /// The candidates of an element-based edge mapping.
    EdgeCandidates { mapping: u32 },
    /// The precondition of the semantic object of an edge mapping.
    EdgePrecondition { pair: Pair },
    /// The source finder at the semantic object of an edge mapping.
    Source { pair: Pair },
    /// The target finder at the semantic object of an edge mapping.
    Target { pair: Pair },
    /// The predicate of a conditional style, counted from 1.
    Style { style: u32, key: AnyKey },
    /// The label of the style that is used: 0 is the default style, else as for `Style`.
    Label { style: u32, key: AnyKey },
    /// The predicate of a filter, counted from 0.
    Filter { filter: u32, key: AnyKey },
}

impl Drop for Unit {
    fn drop(self) {
        match self {
            Unit::Candidates {
                mapping: _,
                parent: _parent,
            } => {}
            Unit::Precondition { key: _key } => {}
            Unit::EdgeCandidates { mapping: _ } => {}
            Unit::EdgePrecondition { pair: _ } => {}
            Unit::Source { pair: _ } => {}
            Unit::Target { pair: _ } => {}
            Unit::Style {
                style: _,
                key: _key,
            } => {}
            Unit::Label {
                style: _,
                key: _key,
            } => {}
            Unit::Filter {
                filter: _,
                key: _key,
            } => {}
        }
    }
}

impl Duplicate for Unit {
    fn copy(&self, alloc: Global) -> Result<Unit, AllocError> {
        match self {
            Unit::Candidates { mapping, parent } => Ok(Unit::Candidates {
                mapping: *mapping,
                parent: copy_of_parent(alloc, parent)?,
            }),
            Unit::Precondition { key } => Ok(Unit::Precondition {
                key: key.copy(alloc)?,
            }),
            Unit::EdgeCandidates { mapping } => Ok(Unit::EdgeCandidates { mapping: *mapping }),
            Unit::EdgePrecondition { pair } => Ok(Unit::EdgePrecondition { pair: *pair }),
            Unit::Source { pair } => Ok(Unit::Source { pair: *pair }),
            Unit::Target { pair } => Ok(Unit::Target { pair: *pair }),
            Unit::Style { style, key } => Ok(Unit::Style {
                style: *style,
                key: key.copy(alloc)?,
            }),
            Unit::Label { style, key } => Ok(Unit::Label {
                style: *style,
                key: key.copy(alloc)?,
            }),
            Unit::Filter { filter, key } => Ok(Unit::Filter {
                filter: *filter,
                key: key.copy(alloc)?,
            }),
        }
    }
}

fn copy_of_parent(alloc: Global, parent: &Option<Key>) -> Result<Option<Key>, AllocError>
    ensures { IfOk result (λ copy. copy ≡ parent.now) }
{
    match parent {
        Some(key) => Ok(Some(key.copy(alloc)?)),
        None => Ok(None),
    }
}
