ghost use Rattle.serde_json.specs.View.{view};
ghost use Rattle.wb_json.specs.Form.{Gives};
ghost use Rattle.wb_viewpoint.specs.Forms.{ends_of, edge_of, object_edge_of};

use crate::expression_texts::ExpressionText;
use crate::groups::{read_finders, read_named, read_shown};
use crate::mappings::{Mapping, MappingForm};
use crate::objects::Objects;
use crate::styles::read_looks;
use std::alloc::Global;
use wb_base::List;
use wb_json::{Name, Value, Wrong, listed, needed};

const EDGE_MEMBERS: &[&str] = &[
    "name",
    "kind",
    "precondition",
    "layer",
    "sources",
    "targets",
    "targetFinder",
    "style",
    "styles",
];

const OBJECT_EDGE_MEMBERS: &[&str] = &[
    "name",
    "kind",
    "domain",
    "candidates",
    "precondition",
    "layer",
    "sources",
    "targets",
    "sourceFinder",
    "targetFinder",
    "style",
    "styles",
];

/// The names of the mappings of an edge's two ends.
pub struct Ends {
    pub sources: List<Name>,
    pub targets: List<Name>,
}

impl Drop for Ends {
    fn drop(self) {
        let Ends {
            sources: _sources,
            targets: _targets,
        } = self;
    }
}

/// What an edge mapping has where its edges stand for objects.
pub struct ObjectEdge {
    pub objects: Objects,
    pub source_finder: ExpressionText,
}

impl Drop for ObjectEdge {
    fn drop(self) {
        let ObjectEdge {
            objects: _objects,
            source_finder: _source_finder,
        } = self;
    }
}

/// A mapping to edges.
pub struct EdgeMapping {
    /// What the edges stand for, of kind `object-edge`. Of kind `edge` they stand for their sources.
    pub object_edge: Option<ObjectEdge>,
    pub ends: Ends,
    pub target_finder: ExpressionText,
}

impl Drop for EdgeMapping {
    fn drop(self) {
        let EdgeMapping {
            object_edge: _object_edge,
            ends: _ends,
            target_finder: _target_finder,
        } = self;
    }
}

pub(crate) fn read_ends(alloc: Global, value: &Value) -> Result<Ends, Wrong>
    ensures { Gives result (ends_of (view value.now)) }
{
    let sources = needed(alloc, value, "sources")?;
    let targets = needed(alloc, value, "targets")?;
    Ok(Ends { sources, targets })
}

#[tactic(auto, unfolding(crate::specs::Forms::edge_of))]
pub(crate) fn read_edge(alloc: Global, value: &Value) -> Result<Mapping, Wrong>
    ensures { Gives result (edge_of (view value.now)) }
{
    listed(alloc, value, EDGE_MEMBERS)?;
    let name = needed(alloc, value, "name")?;
    let shown = read_shown(alloc, value)?;
    let ends = read_ends(alloc, value)?;
    let target_finder = needed(alloc, value, "targetFinder")?;
    let looks = read_looks(alloc, value)?;
    let form = MappingForm::Edge(EdgeMapping {
        object_edge: None,
        ends,
        target_finder,
    });
    Ok(shown.mapping(name, form, looks))
}

#[tactic(auto, unfolding(crate::specs::Forms::object_edge_of))]
pub(crate) fn read_object_edge(alloc: Global, value: &Value) -> Result<Mapping, Wrong>
    ensures { Gives result (object_edge_of (view value.now)) }
{
    let named = read_named(alloc, value, OBJECT_EDGE_MEMBERS)?;
    let shown = read_shown(alloc, value)?;
    let finders = read_finders(alloc, value)?;
    let looks = read_looks(alloc, value)?;
    Ok(named.edge(shown, finders, looks))
}
