ghost use Rattle.std.specs.Prelude.{◌≡◌};
ghost use Rattle.std.specs.List.{list_any};
ghost use Rattle.wb_answers.specs.Environments.{front, last_object};
ghost use Rattle.wb_answers.specs.SameKeys.{among, same_edge};
ghost use Rattle.wb_arguments.specs.Arguments.{Gives, any_object, container_of, edge, edge_object, element, element_object, end_of, object_of, on, place_object};

use crate::ground::Ground;
use crate::refusal::ArgumentRefusal;
use wb_diagram::{AnyKey, EdgeKey, End, Key, Pair};
use wb_metamodel::ObjectId;

/// The key of a declared element.
pub fn element<'a>(ground: &Ground<'_>, key: &'a AnyKey) -> Result<&'a Key, ArgumentRefusal>
    ensures { Gives (λ it. it.now) (element (on ground.now) key.now) result }
{
    match key {
        AnyKey::Node(key) => {
            if is_node(ground.nodes, key) {
                Ok(key)
            } else {
                Err(ArgumentRefusal::UnknownElement)
            }
        }
        AnyKey::Edge(_) => Err(ArgumentRefusal::UnknownElement),
    }
}

/// The key of a declared edge.
pub fn edge<'a>(ground: &Ground<'_>, key: &'a AnyKey) -> Result<&'a EdgeKey, ArgumentRefusal>
    ensures { Gives (λ it. it.now) (edge (on ground.now) key.now) result }
{
    match key {
        AnyKey::Node(_) => Err(ArgumentRefusal::UnknownElement),
        AnyKey::Edge(key) => {
            if is_edge(ground.edges, key) {
                Ok(key)
            } else {
                Err(ArgumentRefusal::UnknownElement)
            }
        }
    }
}

/// The object of a declared element.
pub fn element_object(ground: &Ground<'_>, key: &AnyKey) -> Result<ObjectId, ArgumentRefusal>
    ensures { result ≡ element_object (on ground.now) key.now }
{
    let key = element(ground, key)?;
    Ok(object_of(ground, key))
}

/// The object of a declared element, or the semantic object of a declared edge.
pub fn any_object(ground: &Ground<'_>, key: &AnyKey) -> Result<ObjectId, ArgumentRefusal>
    ensures { result ≡ any_object (on ground.now) key.now }
{
    match key {
        AnyKey::Node(_) => element_object(ground, key),
        AnyKey::Edge(_) => edge_object(ground, key),
    }
}

/// The object of a declared element, or the root element where there is none.
pub fn place_object(
    ground: &Ground<'_>,
    place: &Option<AnyKey>,
) -> Result<ObjectId, ArgumentRefusal>
    ensures { result ≡ place_object (on ground.now) place.now }
{
    match place {
        Some(key) => element_object(ground, key),
        None => Ok(ground.root),
    }
}

/// The object of an element; a key without pairs is the diagram's.
pub fn object_of(ground: &Ground<'_>, key: &Key) -> ObjectId
    ensures { result ≡ object_of (on ground.now) key.now }
{
    last_object(key.pairs.as_slice(), ground.root)
}

/// The object of the parent of an element, or the root element under the diagram.
pub fn container_of(ground: &Ground<'_>, key: &Key) -> ObjectId
    ensures { result ≡ container_of (on ground.now) key.now }
{
    last_object(front(key.pairs.as_slice()), ground.root)
}

/// The element at an end of an edge.
pub fn end_of(end: End, key: &EdgeKey) -> &Key
    ensures { result.now ≡ end_of end key.now }
{
    match end {
        End::Source => &key.source,
        End::Target => &key.target,
    }
}

fn edge_object(ground: &Ground<'_>, key: &AnyKey) -> Result<ObjectId, ArgumentRefusal>
    ensures { result ≡ edge_object (on ground.now) key.now }
{
    let key = edge(ground, key)?;
    Ok(key.object)
}

fn is_node(nodes: &[Key], key: &Key) -> bool
    ensures { result ≡ among nodes.now key.now }
{
    nodes.iter().any(|node| key == node)
}

fn is_edge(edges: &[EdgeKey], key: &EdgeKey) -> bool
    ensures { result ≡ list_any (same_edge key.now) edges.now }
{
    edges.iter().any(|edge| key == edge)
}

// The object of the last pair, or the root element where there is none.
fn last_object(path: &[Pair], root: ObjectId) -> ObjectId
    ensures { result ≡ last_object root path.now }
{
    match path.last() {
        Some(pair) => pair.object,
        None => root,
    }
}

// The path without its last pair.
fn front(path: &[Pair]) -> &[Pair]
    ensures { result.now ≡ front path.now }
{
    if path.is_empty() {
        path
    } else {
        &path[..path.len() - 1]
    }
}
