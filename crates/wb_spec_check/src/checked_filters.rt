use wb_base::List;
use wb_expressions::Checked;

/// A filter, with the numbers of its mappings.
pub struct CheckedFilter {
    pub mappings: List<u32>,
    pub hides: Checked,
}

impl Drop for CheckedFilter {
    fn drop(self) {
        let CheckedFilter {
            mappings: _mappings,
            hides: _hides,
        } = self;
    }
}
