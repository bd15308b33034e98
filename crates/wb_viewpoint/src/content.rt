use crate::filters::Filter;
use crate::layers::Layers;
use crate::mappings::Mapping;
use crate::tools::Tool;
use wb_base::List;
use wb_json::Name;

/// What a viewpoint is: all that its text says.
pub struct Content {
    pub viewpoint_name: Name,
    pub diagram_name: Name,
    /// The class of the root element.
    pub domain: Name,
    pub layers: Layers,
    /// The names of the mappings of the elements on top.
    pub top: List<Name>,
    /// A mapping's number is its place here.
    pub mappings: List<Mapping>,
    pub filters: List<Filter>,
    pub tools: List<Tool>,
}

impl Drop for Content {
    fn drop(self) {
        let Content {
            viewpoint_name: _viewpoint_name,
            diagram_name: _diagram_name,
            domain: _domain,
            layers: _layers,
            top: _top,
            mappings: _mappings,
            filters: _filters,
            tools: _tools,
        } = self;
    }
}
