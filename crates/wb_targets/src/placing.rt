ghost use Rattle.std.specs.Prelude.{◌≡◌, IfOk};
ghost use Rattle.wb_answers.specs.Environments.{front};
ghost use Rattle.wb_spec_check.specs.Units.{last_pair};
ghost use Rattle.wb_targets.specs.Targets.{is_list, is_list_item, is_listed_by, is_listed_in, is_placeable, lists, placeable};

use crate::marking::node_mapping;
use std::alloc::{AllocError, Global};
use wb_base::{Duplicate, List};
use wb_diagram::{Key, Pair};
use wb_spec_check::{CheckedNode, CheckedViewpoint};
use wb_viewpoint::NodeKind;

/// Can the element be placed? All can but those that a list has by its children.
#[tactic(auto, unfolding(crate::specs::Targets::is_placeable))]
pub fn is_placeable(spec: &CheckedViewpoint, key: &Key) -> bool
    ensures { result ≡ is_placeable spec.now key.now }
{
    !is_list_item(spec, key.pairs.as_slice())
}

/// Those of the elements that can be placed, in order.
pub fn placeable(
    alloc: Global,
    spec: &CheckedViewpoint,
    keys: &[Key],
) -> Result<List<Key>, AllocError>
    ensures { IfOk result (λ found. found ≡ placeable spec.now keys.now) }
{
    let mut found = Vec::new(alloc);
    for key in keys {
        if is_placeable(spec, key) {
            found.push(key.copy(alloc)?)?;
        }
    }
    Ok(List::from_vec(found))
}

// Is the element one that a list has by its children?
fn is_list_item(spec: &CheckedViewpoint, path: &[Pair]) -> bool
    ensures { result ≡ is_list_item spec.now path.now }
{
    match last_pair(path) {
        Some(own) => is_listed_in(spec, path, own),
        None => false,
    }
}

fn is_listed_in(spec: &CheckedViewpoint, path: &[Pair], own: Pair) -> bool
    ensures { result ≡ is_listed_in spec.now path.now own }
{
    match last_pair(front(path)) {
        Some(parent) => is_listed_by(spec, own, parent),
        None => false,
    }
}

fn is_listed_by(spec: &CheckedViewpoint, own: Pair, parent: Pair) -> bool
    ensures { result ≡ is_listed_by spec.now own parent }
{
    match node_mapping(spec, parent.mapping) {
        Some(node) => lists(own.mapping, node),
        None => false,
    }
}

// Does a list have elements of this mapping as its children?
fn lists(child: u32, node: &CheckedNode) -> bool
    ensures { result ≡ lists child node.now }
{
    is_list(node.kind) && node.children.as_slice().contains(&child)
}

fn is_list(kind: NodeKind) -> bool
    ensures { result ≡ is_list kind }
{
    match kind {
        NodeKind::List => true,
        NodeKind::Node => false,
        NodeKind::Container => false,
        NodeKind::Border => false,
    }
}

fn last_pair(path: &[Pair]) -> Option<Pair>
    ensures { result ≡ last_pair path.now }
{
    path.last().copied()
}

// The path without its last pair.
fn front(path: &[Pair]) -> &[Pair]
    ensures { result.now ≡ front path.now }
{
    if path.is_empty() {
        path
    } else {
        &path[..path.len() - 1]
    }
}
