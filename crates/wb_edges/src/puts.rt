ghost use Rattle.std.specs.Prelude.{◌≡◌, ◌≤◌, [], ◌∷◌, length};
ghost use Rattle.std.specs.List.{flat_map};
ghost use Rattle.wb_edges.specs.Puts.{Puts, edges_by_ends, edges_from, edges_from_object};

use crate::ends::{Ends, elements_for, gather, is_any_represented};
use crate::grounds::Grounds;
use indexmap::{IndexMap, IndexSet};
use wb_answers::Stop;
use wb_base::{Duplicate, List};
use wb_diagram::{EdgeKey, Key, Pair};
use wb_metamodel::ObjectId;

// Puts an edge last, unless it is there.
fn put(edge: EdgeKey, room: usize, edges: &mut IndexSet<EdgeKey>) -> Result<(), Stop>
    requires { length edges.old.keys ≤ room }
    ensures { Puts edges.old.keys (edge ∷ []) room result edges.new.keys }
{
    edges.insert_full(edge)?;
    if edges.len() > room {
        return Err(Stop::TooLarge);
    }
    Ok(())
}

// Puts the edges from an element to each of the targets.
fn put_from(
    grounds: &Grounds<'_>,
    pair: &Pair,
    source: &Key,
    targets: &[Key],
    edges: &mut IndexSet<EdgeKey>,
) -> Result<(), Stop>
    requires { length edges.old.keys ≤ grounds.now.room }
    ensures { Puts edges.old.keys (edges_from pair.now targets.now source.now) grounds.now.room result edges.new.keys }
{
    for target in targets {
        let edge = EdgeKey {
            mapping: pair.mapping,
            object: pair.object,
            source: source.copy(grounds.alloc)?,
            target: target.copy(grounds.alloc)?,
        };
        put(edge, grounds.room, edges)?;
    }
    Ok(())
}

// Puts the edges from each of the sources to each of the targets.
fn put_from_each(
    grounds: &Grounds<'_>,
    pair: &Pair,
    sources: &[Key],
    targets: &[Key],
    edges: &mut IndexSet<EdgeKey>,
) -> Result<(), Stop>
    requires { length edges.old.keys ≤ grounds.now.room }
    ensures { Puts edges.old.keys (flat_map (edges_from pair.now targets.now) sources.now) grounds.now.room result edges.new.keys }
{
    for source in sources {
        put_from(grounds, pair, source, targets, edges)?;
    }
    Ok(())
}

// Puts the edges from the elements of each of the objects to each of the targets.
fn put_from_objects(
    grounds: &Grounds<'_>,
    pair: &Pair,
    sources: &IndexMap<u32, List<Key>>,
    objects: &[ObjectId],
    targets: &[Key],
    edges: &mut IndexSet<EdgeKey>,
) -> Result<(), Stop>
    requires { length edges.old.keys ≤ grounds.now.room }
    ensures { Puts edges.old.keys (flat_map (edges_from_object pair.now targets.now sources.now) objects.now) grounds.now.room result edges.new.keys }
{
    for object in objects {
        let own = elements_for(sources, *object);
        put_from_each(grounds, pair, own, targets, edges)?;
    }
    Ok(())
}

/// Puts the edges from the elements of the source objects to those of the target objects.
pub fn put_between(
    grounds: &Grounds<'_>,
    ends: &Ends,
    pair: &Pair,
    sources: &[ObjectId],
    targets: &[ObjectId],
    edges: &mut IndexSet<EdgeKey>,
) -> Result<(), Stop>
    requires { length edges.old.keys ≤ grounds.now.room }
    ensures { Puts edges.old.keys (edges_by_ends ends.now pair.now sources.now targets.now) grounds.now.room result edges.new.keys }
{
    if !is_any_represented(&ends.sources, sources) {
        return Ok(());
    }
    let to = gather(grounds.alloc, &ends.targets, targets)?;
    put_from_objects(grounds, pair, &ends.sources, sources, to.as_slice(), edges)
}
