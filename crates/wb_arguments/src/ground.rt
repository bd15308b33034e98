use wb_diagram::{EdgeKey, Key};
use wb_metamodel::ObjectId;

/// What the keys of arguments may name.
#[derive(Clone, Copy)]
pub struct Ground<'a> {
    /// The keys of the declared elements.
    pub nodes: &'a [Key],
    /// The keys of the declared edges.
    pub edges: &'a [EdgeKey],
    /// The root element, which stands for the diagram.
    pub root: ObjectId,
}
