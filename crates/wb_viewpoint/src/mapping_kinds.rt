use crate::nodes::NodeKind;
use std::alloc::Global;
use wb_json::{Form, Value, Wrong, chosen};

/// The kinds of mappings, each of which has its form.
#[derive(Clone, Copy)]
pub(crate) enum MappingKind {
    Node(NodeKind),
    Edge,
    ObjectEdge,
}

impl Form for MappingKind {
    ghost use Rattle.wb_viewpoint.specs.Forms.{mapping_kind_of};

    ghost form = { mapping_kind_of };

    fn read(alloc: Global, value: &Value) -> Result<MappingKind, Wrong> {
        chosen(
            alloc,
            value,
            &[
                ("node", MappingKind::Node(NodeKind::Node)),
                ("container", MappingKind::Node(NodeKind::Container)),
                ("list", MappingKind::Node(NodeKind::List)),
                ("border", MappingKind::Node(NodeKind::Border)),
                ("edge", MappingKind::Edge),
                ("object-edge", MappingKind::ObjectEdge),
            ],
        )
    }
}
