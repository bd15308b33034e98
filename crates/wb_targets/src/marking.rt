ghost use Rattle.std.specs.Prelude.{◌≡◌};
ghost use Rattle.std.specs.Option.{option_copied};
ghost use Rattle.wb_spec_check.specs.Units.{mapping_of_key};
ghost use Rattle.wb_nodes.specs.Nodes.{node_in, node_mapping};
ghost use Rattle.wb_targets.specs.Targets.{is_unsynchronised};

use wb_diagram::AnyKey;
use wb_spec_check::{CheckedForm, CheckedNode, CheckedViewpoint};

/// Is it a mapping to elements that shows those candidates alone that were explicitly shown?
#[tactic(auto, unfolding(crate::specs::Targets::is_unsynchronised))]
pub fn is_unsynchronised(spec: &CheckedViewpoint, mapping: u32) -> bool
    ensures { result ≡ is_unsynchronised spec.now mapping }
{
    match node_mapping(spec, mapping) {
        Some(node) => !node.synchronised,
        None => false,
    }
}

/// The mapping to nodes, containers, lists or borders of this number.
#[tactic(auto, unfolding(wb_nodes::specs::Nodes::node_mapping))]
pub(crate) fn node_mapping(spec: &CheckedViewpoint, number: u32) -> Option<&CheckedNode>
    ensures { option_copied result ≡ node_mapping spec.now number }
{
    let mapping = spec.parts().mappings.as_slice().get(number as usize)?;
    node_in(&mapping.form)
}

fn node_in(form: &CheckedForm) -> Option<&CheckedNode>
    ensures { option_copied result ≡ node_in form.now }
{
    match form {
        CheckedForm::Node(node) => Some(node),
        CheckedForm::Edge(_) => None,
    }
}

/// The number of the mapping of an element or edge; a key without pairs has none.
pub fn mapping_of(key: &AnyKey) -> Option<u32>
    ensures { result ≡ mapping_of_key key.now }
{
    match key {
        AnyKey::Node(key) => match key.pairs.as_slice().last() {
            Some(pair) => Some(pair.mapping),
            None => None,
        },
        AnyKey::Edge(key) => Some(key.mapping),
    }
}
