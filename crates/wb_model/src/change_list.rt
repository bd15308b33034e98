/// What edits have changed since the list was begun.
#[derive(Drop)]
pub struct ChangeList {}

impl ChangeList {
    /// Nothing has changed yet.
    pub fn new() -> ChangeList {
        ChangeList {}
    }
}
