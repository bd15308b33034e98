ghost use Rattle.std.specs.Prelude.{◌≡◌, ◌≤◌, ◌+◌, false, length, IfOk};
ghost use Rattle.std.specs.List.{flat_map};
ghost use Rattle.wb_base.specs.Lists.{numbers};
ghost use Rattle.wb_spec_check.specs.Checked.{IsCheckedBy};
ghost use Rattle.wb_answers.specs.Limits.{AsksUpTo};
ghost use Rattle.wb_edges.specs.Draws.{Draws};
ghost use Rattle.wb_edges.specs.Edges.{edge_units, edges, edges_by, edges_with, scene_of, units_by, units_with};
ghost use Rattle.wb_edges.specs.Grounds.{HasClassOfCandidates, IsSound, scene};

use crate::drawing::draw_each;
use crate::ends::ends_of;
use crate::grounds::{Grounds, count_of_mappings, edge_mapping};
use crate::semantic::semantic;
use indexmap::IndexSet;
use std::alloc::{AllocError, Global};
use wb_answers::{Answers, Stop};
use wb_base::List;
use wb_diagram::{EdgeKey, Key};
use wb_model::Model;
use wb_spec_check::{CheckedEdge, CheckedViewpoint};

/// How many elements and edges are declared at most.
const LIMIT: usize = 100_000;

/// The keys of the declared edges between these declared elements, in order and each once; the units that declare them are asked.
///
/// `TooLarge` comes also where more than 100,000 elements and edges are declared.
#[tactic(auto, unfolding(crate::specs::Edges::edges, crate::specs::Edges::edge_units))]
pub fn declare_edges<A: Answers>(
    alloc: Global,
    spec: &CheckedViewpoint,
    model: &Model,
    nodes: &[Key],
    answers: &mut A,
) -> Result<List<EdgeKey>, Stop>
    requires checked { IsCheckedBy model.now.metamodel spec.now }
    requires fine { (A.seen answers.old).over ≡ false }
    ensures edges { IfOk result (λ keys. keys ≡ edges (scene_of spec.now model.now nodes.now) (A.seen answers.old).told) }
    ensures asks { AsksUpTo (A.seen answers.old) (edge_units (scene_of spec.now model.now nodes.now) (A.seen answers.old).told) (length nodes.now + length (edges (scene_of spec.now model.now nodes.now) (A.seen answers.old).told)) result (A.seen answers.new) }
{
    if nodes.len() > LIMIT {
        return Err(Stop::TooLarge);
    }
    let grounds = Grounds {
        alloc,
        spec,
        model,
        nodes,
        room: LIMIT - nodes.len(),
    };
    let mut edges = IndexSet::new(alloc);
    declare_all(&grounds, &mut edges, answers)?;
    Ok(in_order(alloc, edges)?)
}

// The keys of a set as a list.
fn in_order(alloc: Global, edges: IndexSet<EdgeKey>) -> Result<List<EdgeKey>, AllocError>
    ensures { IfOk result (λ keys. keys ≡ edges.keys) }
{
    Ok(List::from_vec(edges.into_iter().collect(alloc)?))
}

// Puts the edges that all mappings declare.
fn declare_all<A: Answers>(
    grounds: &Grounds<'_>,
    edges: &mut IndexSet<EdgeKey>,
    answers: &mut A,
) -> Result<(), Stop>
    requires sound { IsSound grounds.now }
    requires fine { (A.seen answers.old).over ≡ false }
    requires few { length edges.old.keys ≤ grounds.now.room }
    ensures { Draws (A.seen answers.old) (flat_map (units_by (scene grounds.now) (A.seen answers.old).told) (numbers (length grounds.now.spec.now.1.mappings))) edges.old.keys (flat_map (edges_by (scene grounds.now) (A.seen answers.old).told) (numbers (length grounds.now.spec.now.1.mappings))) grounds.now.room result (A.seen answers.new) edges.new.keys }
{
    let count = count_of_mappings(grounds.spec);
    for number in 0..count {
        declare_by(grounds, number, edges, answers)?;
    }
    Ok(())
}

// Puts the edges that the mapping of this number declares.
#[tactic(auto, using(wb_answers::proofs::SeenLaws::after_none, crate::proofs::Putting::put_none), unfolding(crate::specs::Edges::units_by, crate::specs::Edges::edges_by))]
fn declare_by<A: Answers>(
    grounds: &Grounds<'_>,
    number: u32,
    edges: &mut IndexSet<EdgeKey>,
    answers: &mut A,
) -> Result<(), Stop>
    requires sound { IsSound grounds.now }
    requires fine { (A.seen answers.old).over ≡ false }
    requires few { length edges.old.keys ≤ grounds.now.room }
    ensures { Draws (A.seen answers.old) (units_by (scene grounds.now) (A.seen answers.old).told number) edges.old.keys (edges_by (scene grounds.now) (A.seen answers.old).told number) grounds.now.room result (A.seen answers.new) edges.new.keys }
{
    match edge_mapping(grounds.spec, number) {
        Some(edge) => declare_with(grounds, number, edge, edges, answers),
        None => Ok(()),
    }
}

fn declare_with<A: Answers>(
    grounds: &Grounds<'_>,
    number: u32,
    edge: &CheckedEdge,
    edges: &mut IndexSet<EdgeKey>,
    answers: &mut A,
) -> Result<(), Stop>
    requires class { HasClassOfCandidates grounds.now edge.now }
    requires fine { (A.seen answers.old).over ≡ false }
    requires few { length edges.old.keys ≤ grounds.now.room }
    ensures { Draws (A.seen answers.old) (units_with (scene grounds.now) (A.seen answers.old).told number edge.now) edges.old.keys (edges_with (scene grounds.now) (A.seen answers.old).told number edge.now) grounds.now.room result (A.seen answers.new) edges.new.keys }
{
    let ends = ends_of(grounds, edge)?;
    let objects = semantic(grounds, number, edge, answers)?;
    draw_each(
        grounds,
        number,
        edge,
        &ends,
        objects.as_slice(),
        edges,
        answers,
    )
}
