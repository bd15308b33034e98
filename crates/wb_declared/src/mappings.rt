ghost use Rattle.std.specs.Prelude.{◌≡◌, nat_eq};
ghost use Rattle.std.specs.List.{list_any};
ghost use Rattle.std.specs.Option.{option_copied};
ghost use Rattle.wb_spec_check.specs.Units.{mapping_of};
ghost use Rattle.wb_nodes.specs.Nodes.{is_conditional, mappings_inside, node_in, node_mapping};
ghost use Rattle.wb_declared.specs.Standing.{may_stand};

use wb_diagram::Pair;
use wb_spec_check::{CheckedForm, CheckedMapping, CheckedNode, CheckedViewpoint};

fn mapping_of(spec: &CheckedViewpoint, number: u32) -> Option<&CheckedMapping>
    ensures { option_copied result ≡ mapping_of spec.now number }
{
    spec.parts().mappings.as_slice().get(number as usize)
}

/// The mapping to nodes, containers, lists or borders of this number.
#[tactic(auto, unfolding(wb_nodes::specs::Nodes::node_mapping))]
pub fn node_mapping(spec: &CheckedViewpoint, number: u32) -> Option<&CheckedNode>
    ensures { option_copied result ≡ node_mapping spec.now number }
{
    match mapping_of(spec, number) {
        Some(mapping) => node_in(&mapping.form),
        None => None,
    }
}

fn node_in(form: &CheckedForm) -> Option<&CheckedNode>
    ensures { option_copied result ≡ node_in form.now }
{
    match form {
        CheckedForm::Node(node) => Some(node),
        CheckedForm::Edge(_) => None,
    }
}

/// Has the mapping of this number a precondition?
#[tactic(auto, unfolding(wb_nodes::specs::Nodes::is_conditional))]
pub fn is_conditional(spec: &CheckedViewpoint, number: u32) -> bool
    ensures { result ≡ is_conditional spec.now number }
{
    match mapping_of(spec, number) {
        Some(mapping) => mapping.precondition.is_some(),
        None => false,
    }
}

/// May elements of the mapping of this number stand directly under a path?
#[tactic(auto, unfolding(wb_nodes::specs::Nodes::child_mappings))]
pub fn may_stand(spec: &CheckedViewpoint, path: &[Pair], number: u32) -> bool
    ensures { result ≡ may_stand spec.now path.now number }
{
    let Some(own) = path.last() else {
        return spec.parts().top.as_slice().contains(&number);
    };
    match node_mapping(spec, own.mapping) {
        Some(node) => is_inside(node, number),
        None => false,
    }
}

// Is the number one of a child mapping or of a border?
fn is_inside(node: &CheckedNode, number: u32) -> bool
    ensures { result ≡ list_any (nat_eq number) (mappings_inside node.now) }
{
    node.children.as_slice().contains(&number) || node.borders.as_slice().contains(&number)
}
