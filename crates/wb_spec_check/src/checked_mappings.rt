use crate::checked_looks::CheckedLooks;
use wb_base::List;
use wb_expressions::Checked;
use wb_metamodel::ClassId;
use wb_viewpoint::NodeKind;

/// The class of a mapping's objects, and the expression that gives them; without one it gives all of the class.
pub struct CheckedObjects {
    pub domain: ClassId,
    pub candidates: Checked,
}

impl Drop for CheckedObjects {
    fn drop(self) {
        let CheckedObjects {
            domain: _,
            candidates: _candidates,
        } = self;
    }
}

/// A mapping to nodes, containers, lists or borders.
pub struct CheckedNode {
    pub kind: NodeKind,
    pub objects: CheckedObjects,
    pub synchronised: bool,
    /// The numbers of the mappings of the elements inside.
    pub children: List<u32>,
    /// The numbers of the mappings of the elements on the border.
    pub borders: List<u32>,
}

impl Drop for CheckedNode {
    fn drop(self) {
        let CheckedNode {
            kind: _,
            objects: _objects,
            synchronised: _,
            children: _children,
            borders: _borders,
        } = self;
    }
}

/// What an edge mapping has where its edges stand for objects.
pub struct CheckedSource {
    pub objects: CheckedObjects,
    pub source_finder: Checked,
}

impl Drop for CheckedSource {
    fn drop(self) {
        let CheckedSource {
            objects: _objects,
            source_finder: _source_finder,
        } = self;
    }
}

/// A mapping to edges.
pub struct CheckedEdge {
    pub object_edge: Option<CheckedSource>,
    /// The numbers of the mappings at whose elements an edge may begin.
    pub sources: List<u32>,
    /// The numbers of the mappings at whose elements an edge may end.
    pub targets: List<u32>,
    pub target_finder: Checked,
}

impl Drop for CheckedEdge {
    fn drop(self) {
        let CheckedEdge {
            object_edge: _object_edge,
            sources: _sources,
            targets: _targets,
            target_finder: _target_finder,
        } = self;
    }
}

/// What differs between mappings to nodes and mappings to edges.
pub enum CheckedForm {
    Node(CheckedNode),
    Edge(CheckedEdge),
}

impl Drop for CheckedForm {
    fn drop(self) {
        match self {
            CheckedForm::Node(_mapping) => {}
            CheckedForm::Edge(_mapping) => {}
        }
    }
}

/// A mapping, with what its names name.
pub struct CheckedMapping {
    pub form: CheckedForm,
    pub precondition: Option<Checked>,
    /// The number of its layer.
    pub layer: u32,
    pub looks: CheckedLooks,
}

impl Drop for CheckedMapping {
    fn drop(self) {
        let CheckedMapping {
            form: _form,
            precondition: _precondition,
            layer: _,
            looks: _looks,
        } = self;
    }
}
