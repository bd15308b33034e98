ghost use Rattle.std.specs.Prelude.{◌≡◌, ◌≤◌, ℕ, false, length};
ghost use Rattle.std.specs.List.{flat_map};
ghost use Rattle.wb_edges.specs.Draws.{Draws};
ghost use Rattle.wb_edges.specs.Edges.{edges_at, edges_between, finders, found_sources, found_targets, pair_of, units_at};
ghost use Rattle.wb_edges.specs.Grounds.{AreEnds, scene};

use crate::ends::Ends;
use crate::found::{found_sources, found_targets, passes};
use crate::grounds::Grounds;
use crate::puts::put_between;
use indexmap::IndexSet;
use wb_answers::{Answers, Stop};
use wb_diagram::{EdgeKey, Pair};
use wb_metamodel::ObjectId;
use wb_spec_check::CheckedEdge;

/// Puts the edges that these semantic objects of a mapping declare; their units are asked.
pub fn draw_each<A: Answers>(
    grounds: &Grounds<'_>,
    number: u32,
    edge: &CheckedEdge,
    ends: &Ends,
    objects: &[ObjectId],
    edges: &mut IndexSet<EdgeKey>,
    answers: &mut A,
) -> Result<(), Stop>
    requires fine { (A.seen answers.old).over ≡ false }
    requires ends { AreEnds (scene grounds.now) edge.now ends.now }
    requires few { length edges.old.keys ≤ grounds.now.room }
    ensures { Draws (A.seen answers.old) (flat_map (λ (o : ℕ). units_at (scene grounds.now) (A.seen answers.old).told edge.now (pair_of number o)) objects.now) edges.old.keys (flat_map (λ (o : ℕ). edges_at (scene grounds.now) (A.seen answers.old).told edge.now (pair_of number o)) objects.now) grounds.now.room result (A.seen answers.new) edges.new.keys }
{
    for object in objects {
        let pair = Pair {
            mapping: number,
            object: *object,
        };
        draw(grounds, edge, ends, &pair, edges, answers)?;
    }
    Ok(())
}

// Puts the edges that a semantic object declares; its units are asked.
#[tactic(auto, unfolding(crate::specs::Edges::units_at, crate::specs::Edges::edges_at))]
fn draw<A: Answers>(
    grounds: &Grounds<'_>,
    edge: &CheckedEdge,
    ends: &Ends,
    pair: &Pair,
    edges: &mut IndexSet<EdgeKey>,
    answers: &mut A,
) -> Result<(), Stop>
    requires fine { (A.seen answers.old).over ≡ false }
    requires ends { AreEnds (scene grounds.now) edge.now ends.now }
    requires few { length edges.old.keys ≤ grounds.now.room }
    ensures { Draws (A.seen answers.old) (units_at (scene grounds.now) (A.seen answers.old).told edge.now pair.now) edges.old.keys (edges_at (scene grounds.now) (A.seen answers.old).told edge.now pair.now) grounds.now.room result (A.seen answers.new) edges.new.keys }
{
    let passed = passes(grounds, pair, answers)?;
    if passed {
        draw_found(grounds, edge, ends, pair, edges, answers)
    } else {
        Ok(())
    }
}

// Puts the edges between what the finders of a semantic object find.
fn draw_found<A: Answers>(
    grounds: &Grounds<'_>,
    edge: &CheckedEdge,
    ends: &Ends,
    pair: &Pair,
    edges: &mut IndexSet<EdgeKey>,
    answers: &mut A,
) -> Result<(), Stop>
    requires fine { (A.seen answers.old).over ≡ false }
    requires ends { AreEnds (scene grounds.now) edge.now ends.now }
    requires few { length edges.old.keys ≤ grounds.now.room }
    ensures { Draws (A.seen answers.old) (finders edge.now pair.now) edges.old.keys (edges_between (scene grounds.now) edge.now pair.now (found_sources (A.seen answers.old).told edge.now pair.now) (found_targets (A.seen answers.old).told pair.now)) grounds.now.room result (A.seen answers.new) edges.new.keys }
{
    let sources = found_sources(grounds.alloc, edge, pair, answers)?;
    let targets = found_targets(grounds.alloc, pair, answers)?;
    put_between(
        grounds,
        ends,
        pair,
        sources.as_slice(),
        targets.as_slice(),
        edges,
    )
}
