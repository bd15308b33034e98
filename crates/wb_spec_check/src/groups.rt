ghost use Rattle.std.specs.Prelude.{◌≡◌};
ghost use Rattle.wb_spec_check.specs.Mappings.{node_with};
ghost use Rattle.wb_spec_check.specs.declared.checked_mappings.CheckedForm.TheVariants as form;

use crate::checked_looks::CheckedLooks;
use crate::checked_mappings::{
    CheckedEdge, CheckedForm, CheckedMapping, CheckedNode, CheckedObjects, CheckedSource,
};
use wb_base::List;
use wb_expressions::Checked;
use wb_viewpoint::NodeMapping;

/// When the elements of a mapping are shown.
pub(crate) struct Shown {
    pub precondition: Option<Checked>,
    pub layer: u32,
}

impl Drop for Shown {
    fn drop(self) {
        let Shown {
            precondition: _precondition,
            layer: _,
        } = self;
    }
}

/// The numbers of the mappings inside a mapping's elements, and on their border.
pub(crate) struct Nested {
    pub children: List<u32>,
    pub borders: List<u32>,
}

impl Drop for Nested {
    fn drop(self) {
        let Nested {
            children: _children,
            borders: _borders,
        } = self;
    }
}

/// The numbers of the mappings at the two ends of an edge.
pub(crate) struct Ends {
    pub sources: List<u32>,
    pub targets: List<u32>,
}

impl Drop for Ends {
    fn drop(self) {
        let Ends {
            sources: _sources,
            targets: _targets,
        } = self;
    }
}

impl Shown {
    /// The node mapping of these members and others.
    pub(crate) fn node(
        self,
        node: &NodeMapping,
        objects: CheckedObjects,
        nested: Nested,
        looks: CheckedLooks,
    ) -> CheckedMapping
        ensures { result ≡ node_with node.now objects self nested looks }
    {
        self.mapping(CheckedForm::Node(nested.node(node, objects)), looks)
    }

    /// The edge mapping of these members and others.
    pub(crate) fn edge(self, edge: CheckedEdge, looks: CheckedLooks) -> CheckedMapping
        ensures { result ≡ record { form = form.Edge edge; precondition = self.precondition; layer = self.layer; looks = looks } }
    {
        self.mapping(CheckedForm::Edge(edge), looks)
    }

    fn mapping(self, form: CheckedForm, looks: CheckedLooks) -> CheckedMapping
        ensures { result ≡ record { form = form; precondition = self.precondition; layer = self.layer; looks = looks } }
    {
        let Shown {
            precondition,
            layer,
        } = self;
        CheckedMapping {
            form,
            precondition,
            layer,
            looks,
        }
    }
}

impl Nested {
    fn node(self, node: &NodeMapping, objects: CheckedObjects) -> CheckedNode
        ensures { result ≡ record { kind = node.now.kind; objects = objects; synchronised = node.now.synchronised; children = self.children; borders = self.borders } }
    {
        let Nested { children, borders } = self;
        CheckedNode {
            kind: node.kind,
            objects,
            synchronised: node.synchronised,
            children,
            borders,
        }
    }
}

impl Ends {
    /// What an edge mapping is, of these ends and its finders.
    pub(crate) fn edge(
        self,
        object_edge: Option<CheckedSource>,
        target_finder: Checked,
    ) -> CheckedEdge
        ensures { result ≡ record { object_edge = object_edge; sources = self.sources; targets = self.targets; target_finder = target_finder } }
    {
        let Ends { sources, targets } = self;
        CheckedEdge {
            object_edge,
            sources,
            targets,
            target_finder,
        }
    }
}
