ghost use Rattle.serde_json.specs.View.{view};
ghost use Rattle.wb_json.specs.Form.{Gives};
ghost use Rattle.wb_viewpoint.specs.Forms.{node_of};

use crate::groups::{read_named, read_nested, read_shown};
use crate::mappings::Mapping;
use crate::objects::Objects;
use crate::styles::read_looks;
use std::alloc::Global;
use wb_base::List;
use wb_json::{Name, Value, Wrong};

const NODE_MEMBERS: &[&str] = &[
    "name",
    "kind",
    "domain",
    "candidates",
    "precondition",
    "synchronised",
    "layer",
    "children",
    "borders",
    "style",
    "styles",
];

/// What the elements of a node mapping are.
#[derive(Clone, Copy, Debug, PartialEq, Eq)]
pub enum NodeKind {
    Node,
    Container,
    List,
    Border,
}

/// A mapping from objects to nodes, containers, lists or borders.
pub struct NodeMapping {
    pub kind: NodeKind,
    pub objects: Objects,
    /// Is every candidate shown, or only those that were explicitly shown?
    pub synchronised: bool,
    /// The names of the mappings of the elements inside.
    pub children: List<Name>,
    /// The names of the mappings of the elements on the border.
    pub borders: List<Name>,
}

impl Drop for NodeMapping {
    fn drop(self) {
        let NodeMapping {
            kind: _,
            objects: _objects,
            synchronised: _,
            children: _children,
            borders: _borders,
        } = self;
    }
}

#[tactic(auto, unfolding(crate::specs::Forms::node_of))]
pub(crate) fn read_node(alloc: Global, value: &Value, kind: NodeKind) -> Result<Mapping, Wrong>
    ensures { Gives result (node_of kind (view value.now)) }
{
    let named = read_named(alloc, value, NODE_MEMBERS)?;
    let shown = read_shown(alloc, value)?;
    let nested = read_nested(alloc, value)?;
    let looks = read_looks(alloc, value)?;
    Ok(named.node(kind, shown, nested, looks))
}
