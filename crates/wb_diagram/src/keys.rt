use std::alloc::{AllocError, Global};
use wb_base::{Duplicate, List};
use wb_metamodel::ObjectId;

/// An object under a mapping, which is given by its number.
#[derive(Clone, Copy, Debug, PartialEq, Eq, PartialOrd, Ord, Hash)]
pub struct Pair {
    pub mapping: u32,
    pub object: ObjectId,
}

/// The key of a node or container: the pairs on the path from the diagram down to it, its own last.
#[derive(Debug, Drop, PartialEq, Eq, PartialOrd, Ord, Hash)]
pub struct Key {
    pub pairs: List<Pair>,
}

/// The key of an edge: its mapping, its semantic object, and the elements at its ends.
#[derive(Debug, PartialEq, Eq, PartialOrd, Ord, Hash)]
pub struct EdgeKey {
    pub mapping: u32,
    pub object: ObjectId,
    pub source: Key,
    pub target: Key,
}

impl Drop for EdgeKey {
    fn drop(self) {
        let EdgeKey {
            mapping: _,
            object: _,
            source: _source,
            target: _target,
        } = self;
    }
}

/// The key of an element of either sort.
#[derive(Debug, Drop, PartialEq, Eq, PartialOrd, Ord, Hash)]
pub enum AnyKey {
    Node(Key),
    Edge(EdgeKey),
}

impl Duplicate for Pair {
    fn copy(&self, _alloc: Global) -> Result<Pair, AllocError> {
        Ok(*self)
    }
}

impl Duplicate for Key {
    fn copy(&self, alloc: Global) -> Result<Key, AllocError> {
        Ok(Key {
            pairs: self.pairs.copy(alloc)?,
        })
    }
}

impl Duplicate for EdgeKey {
    fn copy(&self, alloc: Global) -> Result<EdgeKey, AllocError> {
        Ok(EdgeKey {
            mapping: self.mapping,
            object: self.object,
            source: self.source.copy(alloc)?,
            target: self.target.copy(alloc)?,
        })
    }
}

impl Duplicate for AnyKey {
    fn copy(&self, alloc: Global) -> Result<AnyKey, AllocError> {
        match self {
            AnyKey::Node(key) => Ok(AnyKey::Node(key.copy(alloc)?)),
            AnyKey::Edge(key) => Ok(AnyKey::Edge(key.copy(alloc)?)),
        }
    }
}
