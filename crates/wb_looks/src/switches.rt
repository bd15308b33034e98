use wb_diagram::AnyKey;

/// What a user switches in a diagram.
#[derive(Clone, Copy)]
pub struct Switches<'a> {
    /// The numbers of the active layers, beside the first, which is always active.
    pub layers: &'a [u32],
    /// The numbers of the active filters.
    pub filters: &'a [u32],
    /// The keys that are marked hidden.
    pub hidden: &'a [AnyKey],
}
