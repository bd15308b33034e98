ghost use Rattle.std.specs.Prelude.{◌≡◌};
ghost use Rattle.serde_json.specs.View.{view};
ghost use Rattle.wb_json.specs.Form.{Gives};
ghost use Rattle.wb_viewpoint.specs.Reading.{frame_of, content_with, content_of};

use crate::content::Content;
use crate::filters::Filter;
use crate::layers::Layers;
use crate::mappings::Mapping;
use crate::tools::Tool;
use std::alloc::Global;
use wb_base::List;
use wb_json::{Form, Name, Value, Wrong, list_or_empty, listed, needed};

/// The name of a diagram, the class of its root element, and its layers.
pub(crate) struct Frame {
    pub name: Name,
    pub domain: Name,
    pub layers: Layers,
}

impl Drop for Frame {
    fn drop(self) {
        let Frame {
            name: _name,
            domain: _domain,
            layers: _layers,
        } = self;
    }
}

/// The one diagram of a viewpoint, as its text says it.
pub(crate) struct Diagram {
    pub frame: Frame,
    pub top: List<Name>,
    pub mappings: List<Mapping>,
    pub filters: List<Filter>,
    pub tools: List<Tool>,
}

impl Drop for Diagram {
    fn drop(self) {
        let Diagram {
            frame: _frame,
            top: _top,
            mappings: _mappings,
            filters: _filters,
            tools: _tools,
        } = self;
    }
}

impl Frame {
    /// The content of these members and others.
    fn content(
        self,
        viewpoint_name: Name,
        top: List<Name>,
        mappings: List<Mapping>,
        filters: List<Filter>,
        tools: List<Tool>,
    ) -> Content
        ensures { result ≡ content_with viewpoint_name (record { frame = self; top = top; mappings = mappings; filters = filters; tools = tools }) }
    {
        let Frame {
            name,
            domain,
            layers,
        } = self;
        Content {
            viewpoint_name,
            diagram_name: name,
            domain,
            layers,
            top,
            mappings,
            filters,
            tools,
        }
    }
}

impl Diagram {
    /// The content of a viewpoint of this name with the diagram.
    fn content(self, viewpoint_name: Name) -> Content
        ensures { result ≡ content_with viewpoint_name self }
    {
        let Diagram {
            frame,
            top,
            mappings,
            filters,
            tools,
        } = self;
        frame.content(viewpoint_name, top, mappings, filters, tools)
    }
}

fn read_frame(alloc: Global, value: &Value) -> Result<Frame, Wrong>
    ensures { Gives result (frame_of (view value.now)) }
{
    let name = needed(alloc, value, "name")?;
    let domain = needed(alloc, value, "domain")?;
    let layers = needed(alloc, value, "layers")?;
    Ok(Frame {
        name,
        domain,
        layers,
    })
}

impl Form for Diagram {
    ghost use Rattle.wb_viewpoint.specs.Reading.{diagram_of};

    ghost form = { diagram_of };

    #[tactic(auto, unfolding(crate::specs::Reading::diagram_of))]
    fn read(alloc: Global, value: &Value) -> Result<Diagram, Wrong> {
        listed(
            alloc,
            value,
            &[
                "name", "domain", "layers", "top", "mappings", "filters", "tools",
            ],
        )?;
        let frame = read_frame(alloc, value)?;
        let top = needed(alloc, value, "top")?;
        let mappings = needed(alloc, value, "mappings")?;
        let filters = list_or_empty(alloc, value, "filters")?;
        let tools = list_or_empty(alloc, value, "tools")?;
        Ok(Diagram {
            frame,
            top,
            mappings,
            filters,
            tools,
        })
    }
}

/// What the text of a viewpoint says.
#[tactic(auto, unfolding(crate::specs::Reading::content_of))]
pub(crate) fn read_content(alloc: Global, value: &Value) -> Result<Content, Wrong>
    ensures { Gives result (content_of (view value.now)) }
{
    listed(alloc, value, &["viewpoint", "diagram"])?;
    let name = needed(alloc, value, "viewpoint")?;
    let diagram: Diagram = needed(alloc, value, "diagram")?;
    Ok(diagram.content(name))
}
