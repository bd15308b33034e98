use crate::edges::{EdgeMapping, read_edge, read_object_edge};
use crate::expression_texts::ExpressionText;
use crate::mapping_kinds::MappingKind;
use crate::nodes::{NodeMapping, read_node};
use crate::styles::Looks;
use std::alloc::Global;
use wb_json::{Form, Name, Value, Wrong, needed};

/// How objects become elements of a diagram.
pub struct Mapping {
    pub name: Name,
    pub form: MappingForm,
    pub precondition: Option<ExpressionText>,
    /// The name of its layer. Without one it is on the first layer.
    pub layer: Option<Name>,
    pub looks: Looks,
}

impl Drop for Mapping {
    fn drop(self) {
        let Mapping {
            name: _name,
            form: _form,
            precondition: _precondition,
            layer: _layer,
            looks: _looks,
        } = self;
    }
}

/// What differs between mappings to nodes and mappings to edges.
pub enum MappingForm {
    /// Of kind `node`, `container`, `list` or `border`.
    Node(NodeMapping),
    /// Of kind `edge` or `object-edge`.
    Edge(EdgeMapping),
}

impl Drop for MappingForm {
    fn drop(self) {
        match self {
            MappingForm::Node(_mapping) => {}
            MappingForm::Edge(_mapping) => {}
        }
    }
}

impl Form for Mapping {
    ghost use Rattle.wb_viewpoint.specs.Forms.{mapping_of};

    ghost form = { mapping_of };

    #[tactic(auto, unfolding(crate::specs::Forms::mapping_of))]
    fn read(alloc: Global, value: &Value) -> Result<Mapping, Wrong> {
        match needed(alloc, value, "kind")? {
            MappingKind::Node(kind) => read_node(alloc, value, kind),
            MappingKind::Edge => read_edge(alloc, value),
            MappingKind::ObjectEdge => read_object_edge(alloc, value),
        }
    }
}
