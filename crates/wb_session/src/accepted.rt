use wb_metamodel::ObjectId;

/// What an accepted command tells.
#[derive(Clone, Copy)]
pub struct Accepted {
    /// The number of commands that were accepted so far.
    pub revision: u64,
    /// The object that the command made: for `create` alone.
    pub created: Option<ObjectId>,
}
