ghost use Rattle.std.specs.Prelude.{◌≡◌};
ghost use Rattle.std.specs.Option.{option_copied};
ghost use Rattle.wb_spec_check.specs.Units.{mapping_of};
ghost use Rattle.wb_nodes.specs.Grounds.{HasClass, scene};
ghost use Rattle.wb_nodes.specs.Nodes.{fits, is_conditional, is_cut, is_shown, node_in, node_mapping};

use indexmap::IndexSet;
use std::alloc::Global;
use wb_diagram::{Key, Pair};
use wb_metamodel::ObjectId;
use wb_model::Model;
use wb_spec_check::{CheckedForm, CheckedMapping, CheckedNode, CheckedViewpoint};

/// What elements are declared over: a model under a viewpoint, with the keys that are marked shown.
#[derive(Drop)]
pub struct Grounds<'a> {
    pub alloc: Global,
    pub spec: &'a CheckedViewpoint,
    pub model: &'a Model,
    pub marks: &'a IndexSet<Key>,
}

fn mapping_of(spec: &CheckedViewpoint, number: u32) -> Option<&CheckedMapping>
    ensures { option_copied result ≡ mapping_of spec.now number }
{
    spec.parts().mappings.as_slice().get(number as usize)
}

/// The mapping to nodes, containers, lists or borders of this number.
#[tactic(auto, unfolding(crate::specs::Nodes::node_mapping))]
pub fn node_mapping(spec: &CheckedViewpoint, number: u32) -> Option<&CheckedNode>
    ensures { option_copied result ≡ node_mapping spec.now number }
{
    match mapping_of(spec, number) {
        Some(mapping) => node_in(&mapping.form),
        None => None,
    }
}

fn node_in(form: &CheckedForm) -> Option<&CheckedNode>
    ensures { option_copied result ≡ node_in form.now }
{
    match form {
        CheckedForm::Node(node) => Some(node),
        CheckedForm::Edge(_) => None,
    }
}

/// Has the mapping of this number a precondition?
#[tactic(auto, unfolding(crate::specs::Nodes::is_conditional))]
pub fn is_conditional(spec: &CheckedViewpoint, number: u32) -> bool
    ensures { result ≡ is_conditional spec.now number }
{
    match mapping_of(spec, number) {
        Some(mapping) => mapping.precondition.is_some(),
        None => false,
    }
}

// Does the pair stand in the path, or has the path 32 pairs already?
fn is_cut(path: &[Pair], pair: Pair) -> bool
    ensures { result ≡ is_cut path.now pair }
{
    path.contains(&pair) || path.len() >= 32
}

/// Can the object stand under the path?
pub fn fits(
    grounds: &Grounds<'_>,
    path: &[Pair],
    number: u32,
    node: &CheckedNode,
    object: ObjectId,
) -> bool
    requires { HasClass grounds.now node.now }
    ensures { result ≡ fits (scene grounds.now) path.now number node.now object }
{
    let pair = Pair {
        mapping: number,
        object,
    };
    let cut = is_cut(path, pair);
    grounds.model.is_of_class(object, node.objects.domain) && !cut
}

/// Is the mapping synchronised, or the key marked shown?
pub fn is_shown(grounds: &Grounds<'_>, node: &CheckedNode, key: &Key) -> bool
    ensures { result ≡ is_shown (scene grounds.now) node.now key.now }
{
    node.synchronised || grounds.marks.contains(key)
}
