ghost use Rattle.std.specs.Prelude.{◌≡◌, length};
ghost use Rattle.std.specs.Option.{option_copied};
ghost use Rattle.wb_spec_check.specs.Units.{mapping_of};
ghost use Rattle.wb_edges.specs.Edges.{edge_in, edge_mapping, is_conditional};

use std::alloc::Global;
use wb_diagram::Key;
use wb_model::Model;
use wb_spec_check::{CheckedEdge, CheckedForm, CheckedMapping, CheckedViewpoint};

/// What edges are declared over: a model under a viewpoint with the declared elements, and for how many edges there is room.
#[derive(Drop)]
pub struct Grounds<'a> {
    pub alloc: Global,
    pub spec: &'a CheckedViewpoint,
    pub model: &'a Model,
    pub nodes: &'a [Key],
    pub room: usize,
}

fn mapping_of(spec: &CheckedViewpoint, number: u32) -> Option<&CheckedMapping>
    ensures { option_copied result ≡ mapping_of spec.now number }
{
    spec.parts().mappings.as_slice().get(number as usize)
}

/// The mapping to edges of this number.
#[tactic(auto, unfolding(crate::specs::Edges::edge_mapping))]
pub fn edge_mapping(spec: &CheckedViewpoint, number: u32) -> Option<&CheckedEdge>
    ensures { option_copied result ≡ edge_mapping spec.now number }
{
    match mapping_of(spec, number) {
        Some(mapping) => edge_in(&mapping.form),
        None => None,
    }
}

fn edge_in(form: &CheckedForm) -> Option<&CheckedEdge>
    ensures { option_copied result ≡ edge_in form.now }
{
    match form {
        CheckedForm::Node(_) => None,
        CheckedForm::Edge(edge) => Some(edge),
    }
}

/// Has the mapping of this number a precondition?
#[tactic(auto, unfolding(crate::specs::Edges::is_conditional))]
pub fn is_conditional(spec: &CheckedViewpoint, number: u32) -> bool
    ensures { result ≡ is_conditional spec.now number }
{
    match mapping_of(spec, number) {
        Some(mapping) => mapping.precondition.is_some(),
        None => false,
    }
}

/// How many mappings there are.
pub fn count_of_mappings(spec: &CheckedViewpoint) -> u32
    ensures { result ≡ length spec.now.1.mappings }
{
    let _content = spec.viewpoint().content();
    spec.parts().mappings.len() as u32
}
