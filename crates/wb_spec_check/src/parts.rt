use crate::checked_filters::CheckedFilter;
use crate::checked_mappings::CheckedMapping;
use crate::checked_tools::CheckedTool;
use wb_base::List;
use wb_metamodel::ClassId;

/// The parts of a viewpoint by number, with what their names name.
pub struct Parts {
    /// The class of the root element.
    pub domain: ClassId,
    /// The numbers of the mappings of the elements on top.
    pub top: List<u32>,
    pub mappings: List<CheckedMapping>,
    pub filters: List<CheckedFilter>,
    pub tools: List<CheckedTool>,
}

impl Drop for Parts {
    fn drop(self) {
        let Parts {
            domain: _,
            top: _top,
            mappings: _mappings,
            filters: _filters,
            tools: _tools,
        } = self;
    }
}
