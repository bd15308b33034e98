use crate::keys::{EdgeKey, Key};
use crate::units::Unit;
use wb_base::{List, Text};

/// How an element or an edge looks.
#[derive(Debug, PartialEq, Eq)]
pub struct Look {
    /// The style that is used: 0 is the default style, others count from 1.
    pub style: u32,
    pub shape: Text,
    pub color: Text,
    pub label: Text,
}

impl Drop for Look {
    fn drop(self) {
        let Look {
            style: _style,
            shape: _shape,
            color: _color,
            label: _label,
        } = self;
    }
}

/// A node, a container, a list or an item of a list.
#[derive(Debug, PartialEq, Eq)]
pub struct Element {
    pub key: Key,
    pub look: Look,
    /// Right and down from its parent, where it was placed.
    pub position: Option<(i64, i64)>,
}

impl Drop for Element {
    fn drop(self) {
        let Element {
            key: _key,
            look: _look,
            position: _position,
        } = self;
    }
}

#[derive(Debug, PartialEq, Eq)]
pub struct Edge {
    pub key: EdgeKey,
    pub look: Look,
}

impl Drop for Edge {
    fn drop(self) {
        let Edge {
            key: _key,
            look: _look,
        } = self;
    }
}

/// A unit whose evaluation failed, and the name of the fault.
#[derive(Debug, PartialEq, Eq)]
pub struct Problem {
    pub at: Unit,
    pub fault: Text,
}

impl Drop for Problem {
    fn drop(self) {
        let Problem {
            at: _at,
            fault: _fault,
        } = self;
    }
}

/// What is served: the visible elements and edges in declared order, the names of the active filters and of the
/// active layers but the first, the problems in the order of units, and the number of changes so far.
#[derive(Debug, PartialEq, Eq)]
pub struct Diagram {
    pub elements: List<Element>,
    pub edges: List<Edge>,
    pub filters: List<Text>,
    pub layers: List<Text>,
    pub problems: List<Problem>,
    pub revision: u64,
}

impl Drop for Diagram {
    fn drop(self) {
        let Diagram {
            elements: _elements,
            edges: _edges,
            filters: _filters,
            layers: _layers,
            problems: _problems,
            revision: _revision,
        } = self;
    }
}
