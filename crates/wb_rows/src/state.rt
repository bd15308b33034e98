use wb_marks::Marks;
use wb_metamodel::ObjectId;
use wb_model::Model;

/// What rows keep of a session's state: all but its past and future.
pub struct KeptState {
    pub model: Model,
    /// The root element.
    pub root: ObjectId,
    /// The number of accepted commands.
    pub revision: u64,
    pub marks: Marks,
}

impl Drop for KeptState {
    fn drop(self) {
        let KeptState {
            model: _model,
            root: _,
            revision: _,
            marks: _marks,
        } = self;
    }
}

/// The same, where the model and the marks are lent.
#[derive(Clone, Copy)]
pub struct StateParts<'a> {
    pub model: &'a Model,
    /// The root element.
    pub root: ObjectId,
    /// The number of accepted commands.
    pub revision: u64,
    pub marks: &'a Marks,
}
