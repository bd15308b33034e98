ghost use Rattle.std.specs.Prelude.{◌≡◌, Some, map};
ghost use Rattle.serde_json.specs.View.{view};
ghost use Rattle.wb_json.specs.Form.{Gives};
ghost use Rattle.wb_viewpoint.specs.Forms.{named_of, shown_of, nested_of, finders_of};
ghost use Rattle.wb_viewpoint.specs.declared.mappings.MappingForm.TheVariants as form;

use crate::edges::{EdgeMapping, Ends, ObjectEdge, read_ends};
use crate::expression_texts::ExpressionText;
use crate::mappings::{Mapping, MappingForm};
use crate::nodes::{NodeKind, NodeMapping};
use crate::objects::{Objects, read_objects};
use crate::styles::Looks;
use std::alloc::Global;
use wb_base::List;
use wb_json::{Name, Value, Wrong, list_or_empty, listed, needed, optional};

/// The first members of a mapping for objects.
pub(crate) struct Named {
    pub name: Name,
    pub objects: Objects,
}

impl Drop for Named {
    fn drop(self) {
        let Named {
            name: _name,
            objects: _objects,
        } = self;
    }
}

/// The members of a mapping that say when its elements are shown.
pub(crate) struct Shown {
    pub precondition: Option<ExpressionText>,
    pub synchronised: bool,
    pub layer: Option<Name>,
}

impl Drop for Shown {
    fn drop(self) {
        let Shown {
            precondition: _precondition,
            synchronised: _,
            layer: _layer,
        } = self;
    }
}

/// The names of the mappings of the elements inside an element, and on its border.
pub(crate) struct Nested {
    pub children: List<Name>,
    pub borders: List<Name>,
}

impl Drop for Nested {
    fn drop(self) {
        let Nested {
            children: _children,
            borders: _borders,
        } = self;
    }
}

/// Where the edges of objects lead from and to.
pub(crate) struct Finders {
    pub ends: Ends,
    pub source_finder: ExpressionText,
    pub target_finder: ExpressionText,
}

impl Drop for Finders {
    fn drop(self) {
        let Finders {
            ends: _ends,
            source_finder: _source_finder,
            target_finder: _target_finder,
        } = self;
    }
}

impl Named {
    /// The node mapping of these members and others.
    pub(crate) fn node(self, kind: NodeKind, shown: Shown, nested: Nested, looks: Looks) -> Mapping
        ensures { result ≡ record {
          name = self.name;
          form = form.Node (record { kind = kind; objects = self.objects; synchronised = shown.synchronised; children = nested.children; borders = nested.borders });
          precondition = shown.precondition;
          layer = shown.layer;
          looks = looks;
        } }
    {
        let Named { name, objects } = self;
        let mapping = nested.node(kind, objects, shown.synchronised);
        shown.mapping(name, MappingForm::Node(mapping), looks)
    }

    /// The mapping of edges for objects, of these members and others.
    pub(crate) fn edge(self, shown: Shown, finders: Finders, looks: Looks) -> Mapping
        ensures { result ≡ record {
          name = self.name;
          form = form.Edge (record { object_edge = Some (record { objects = self.objects; source_finder = finders.source_finder }); ends = finders.ends; target_finder = finders.target_finder });
          precondition = shown.precondition;
          layer = shown.layer;
          looks = looks;
        } }
    {
        let Named { name, objects } = self;
        let mapping = finders.edge(objects);
        shown.mapping(name, MappingForm::Edge(mapping), looks)
    }
}

impl Shown {
    /// The mapping of these members and others.
    pub(crate) fn mapping(self, name: Name, form: MappingForm, looks: Looks) -> Mapping
        ensures { result ≡ record { name = name; form = form; precondition = self.precondition; layer = self.layer; looks = looks } }
    {
        let Shown {
            precondition,
            synchronised: _,
            layer,
        } = self;
        Mapping {
            name,
            form,
            precondition,
            layer,
            looks,
        }
    }
}

impl Nested {
    /// What a mapping for nodes is, of these members and others.
    fn node(self, kind: NodeKind, objects: Objects, synchronised: bool) -> NodeMapping
        ensures { result ≡ record { kind = kind; objects = objects; synchronised = synchronised; children = self.children; borders = self.borders } }
    {
        let Nested { children, borders } = self;
        NodeMapping {
            kind,
            objects,
            synchronised,
            children,
            borders,
        }
    }
}

impl Finders {
    /// What a mapping of edges for objects is, of these members and others.
    fn edge(self, objects: Objects) -> EdgeMapping
        ensures { result ≡ record { object_edge = Some (record { objects = objects; source_finder = self.source_finder }); ends = self.ends; target_finder = self.target_finder } }
    {
        let Finders {
            ends,
            source_finder,
            target_finder,
        } = self;
        EdgeMapping {
            object_edge: Some(ObjectEdge {
                objects,
                source_finder,
            }),
            ends,
            target_finder,
        }
    }
}

pub(crate) fn read_named(alloc: Global, value: &Value, members: &[&str]) -> Result<Named, Wrong>
    ensures { Gives result (named_of (map (λ name. name.now) members.now) (view value.now)) }
{
    listed(alloc, value, members)?;
    let name = needed(alloc, value, "name")?;
    let objects = read_objects(alloc, value)?;
    Ok(Named { name, objects })
}

pub(crate) fn read_shown(alloc: Global, value: &Value) -> Result<Shown, Wrong>
    ensures { Gives result (shown_of (view value.now)) }
{
    let precondition = optional(alloc, value, "precondition")?;
    let synchronised = optional(alloc, value, "synchronised")?;
    let layer = optional(alloc, value, "layer")?;
    Ok(Shown {
        precondition,
        synchronised: synchronised.unwrap_or(true),
        layer,
    })
}

pub(crate) fn read_nested(alloc: Global, value: &Value) -> Result<Nested, Wrong>
    ensures { Gives result (nested_of (view value.now)) }
{
    let children = list_or_empty(alloc, value, "children")?;
    let borders = list_or_empty(alloc, value, "borders")?;
    Ok(Nested { children, borders })
}

pub(crate) fn read_finders(alloc: Global, value: &Value) -> Result<Finders, Wrong>
    ensures { Gives result (finders_of (view value.now)) }
{
    let ends = read_ends(alloc, value)?;
    let source_finder = needed(alloc, value, "sourceFinder")?;
    let target_finder = needed(alloc, value, "targetFinder")?;
    Ok(Finders {
        ends,
        source_finder,
        target_finder,
    })
}
