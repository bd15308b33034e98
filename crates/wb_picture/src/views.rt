use wb_base::List;
use wb_diagram::{EdgeKey, Key, Look, Problem};
use wb_layout::Layout;
use wb_looks::Switches;

/// What a viewpoint declares, in declared order. Looks and flags go by key: those of the elements first, and then those of the edges.
#[derive(Clone, Copy)]
pub struct Declared<'a> {
    /// The keys of the elements.
    pub nodes: &'a [Key],
    /// The keys of the edges.
    pub edges: &'a [EdgeKey],
    pub looks: &'a [Look],
    /// For each filter, which of the keys it hides where it is active.
    pub filtered: &'a [List<bool>],
    /// In the order of units.
    pub problems: &'a [Problem],
}

/// How it is looked at.
#[derive(Clone, Copy)]
pub struct View<'a> {
    pub switches: Switches<'a>,
    pub layout: &'a Layout,
    /// The number of changes so far.
    pub revision: u64,
}
