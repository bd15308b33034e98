ghost use Rattle.std.specs.Prelude.{◌≡◌, ℕ, [], ◌∷◌, ◌++◌, filter, IfOk, OnOk, if◌then◌else◌};
ghost use Rattle.std.specs.List.{flat_map, list_any};
ghost use Rattle.wb_diagram.specs.Keys.{own_pair};
ghost use Rattle.wb_edges.specs.Edges.{is_of, represents};
ghost use Rattle.wb_edges.specs.Grounds.{AreEnds, Indexes, elements_in, has_element, scene};

use crate::grounds::Grounds;
use indexmap::IndexMap;
use std::alloc::{AllocError, Global};
use wb_base::{Duplicate, List};
use wb_diagram::{Key, Pair};
use wb_metamodel::ObjectId;
use wb_spec_check::CheckedEdge;

/// The elements at which the edges of a mapping may begin and end, by the number of the object that they represent.
pub struct Ends {
    pub sources: IndexMap<u32, List<Key>>,
    pub targets: IndexMap<u32, List<Key>>,
}

impl Drop for Ends {
    fn drop(self) {
        let Ends {
            sources: _sources,
            targets: _targets,
        } = self;
    }
}

/// The elements at which the edges of a mapping may begin and end.
pub fn ends_of(grounds: &Grounds<'_>, edge: &CheckedEdge) -> Result<Ends, AllocError>
    ensures { IfOk result (AreEnds (scene grounds.now) edge.now) }
{
    let sources = index(grounds.alloc, edge.sources.as_slice(), grounds.nodes)?;
    let targets = index(grounds.alloc, edge.targets.as_slice(), grounds.nodes)?;
    Ok(Ends { sources, targets })
}

/// The last pair of a key. An empty path is no element's.
#[tactic(auto, unfolding(wb_diagram::specs::Keys::own_pair))]
pub fn own_pair(key: &Key) -> Pair
    ensures { result ≡ own_pair key.now }
{
    match key.pairs.as_slice().last() {
        Some(pair) => *pair,
        None => Pair {
            mapping: 0,
            object: ObjectId(0),
        },
    }
}

/// Is the element of one of these mappings?
pub fn is_of(mappings: &[u32], key: &Key) -> bool
    ensures { result ≡ is_of mappings.now key.now }
{
    mappings.contains(&own_pair(key).mapping)
}

// The elements of these mappings by object, in declared order.
fn index(
    alloc: Global,
    mappings: &[u32],
    nodes: &[Key],
) -> Result<IndexMap<u32, List<Key>>, AllocError>
    ensures { IfOk result (λ table. Indexes table (filter (is_of mappings.now) nodes.now)) }
{
    let mut table = IndexMap::new(alloc);
    for key in nodes {
        if is_of(mappings, key) {
            put_element(alloc, &mut table, key)?;
        }
    }
    Ok(table)
}

// Puts an element last among those of its object.
fn put_element(
    alloc: Global,
    table: &mut IndexMap<u32, List<Key>>,
    key: &Key,
) -> Result<(), AllocError>
    ensures { OnOk result ((o : ℕ) → elements_in table.new o ≡ elements_in table.old o ++ (if represents o key.now then key.now ∷ [] else [])) }
{
    let own = own_pair(key);
    let key = key.copy(alloc)?;
    table
        .entry(own.object.0)?
        .or_insert(List::new(alloc))
        .push(key)?;
    Ok(())
}

/// The elements that represent an object.
pub fn elements_for<'a>(table: &'a IndexMap<u32, List<Key>>, object: ObjectId) -> &'a [Key]
    ensures { result.now ≡ elements_in table.now object }
{
    match table.get(&object.0) {
        Some(keys) => keys.as_slice(),
        None => &[],
    }
}

/// Does an element represent one of these objects?
pub fn is_any_represented(table: &IndexMap<u32, List<Key>>, objects: &[ObjectId]) -> bool
    ensures { result ≡ list_any (has_element table.now) objects.now }
{
    objects
        .iter()
        .any(|object| !elements_for(table, *object).is_empty())
}

/// The elements that represent these objects, object by object.
pub fn gather(
    alloc: Global,
    table: &IndexMap<u32, List<Key>>,
    objects: &[ObjectId],
) -> Result<Vec<Key>, AllocError>
    ensures { IfOk result (λ keys. keys.items ≡ flat_map (elements_in table.now) objects.now) }
{
    let mut keys = Vec::new(alloc);
    for object in objects {
        put_copies(alloc, elements_for(table, *object), &mut keys)?;
    }
    Ok(keys)
}

fn put_copies(alloc: Global, more: &[Key], keys: &mut Vec<Key>) -> Result<(), AllocError>
    ensures { OnOk result (keys.new.items ≡ keys.old.items ++ more.now) }
{
    for key in more {
        keys.push(key.copy(alloc)?)?;
    }
    Ok(())
}
