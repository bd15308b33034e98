ghost use Rattle.std.specs.Prelude.{◌≡◌, [], ◌∷◌, false, IfOk};
ghost use Rattle.wb_diagram.specs.declared.units.Unit.TheVariants.{Target};
ghost use Rattle.wb_answers.specs.Meanings.{objects_of};
ghost use Rattle.wb_answers.specs.Seen.{Asks};
ghost use Rattle.wb_edges.specs.Edges.{found_sources, found_targets, passes, precondition_at, source_finder};
ghost use Rattle.wb_edges.specs.Grounds.{scene};

use crate::grounds::{Grounds, is_conditional};
use indexmap::IndexSet;
use std::alloc::{AllocError, Global};
use wb_answers::{Answers, Stop, is_true, objects_of};
use wb_diagram::{Pair, Unit};
use wb_metamodel::ObjectId;
use wb_spec_check::CheckedEdge;

/// The objects of a unit's answer, each at its first place; the unit is asked.
pub fn objects_at<A: Answers>(
    alloc: Global,
    unit: &Unit,
    answers: &mut A,
) -> Result<IndexSet<ObjectId>, Stop>
    requires { (A.seen answers.old).over ≡ false }
    ensures objects { IfOk result (λ objects. objects.keys ≡ objects_of ((A.seen answers.old).told unit.now)) }
    ensures asks { Asks (A.seen answers.old) (unit.now ∷ []) result (A.seen answers.new) }
{
    let answer = answers.answer(alloc, unit)?;
    Ok(objects_of(alloc, &answer)?)
}

/// Is the precondition of a semantic object true, if there is one? It is then asked.
#[tactic(auto, using(wb_answers::proofs::SeenLaws::after_none))]
pub fn passes<A: Answers>(grounds: &Grounds<'_>, pair: &Pair, answers: &mut A) -> Result<bool, Stop>
    requires { (A.seen answers.old).over ≡ false }
    ensures value { IfOk result (λ b. b ≡ passes (scene grounds.now) (A.seen answers.old).told pair.now) }
    ensures asks { Asks (A.seen answers.old) (precondition_at (scene grounds.now) pair.now) result (A.seen answers.new) }
{
    if !is_conditional(grounds.spec, pair.mapping) {
        return Ok(true);
    }
    let answer = answers.answer(grounds.alloc, &Unit::EdgePrecondition { pair: *pair })?;
    Ok(is_true(&answer))
}

/// The found source objects; the finder is asked where the mapping has one.
#[tactic(auto, using(wb_answers::proofs::SeenLaws::after_none))]
pub fn found_sources<A: Answers>(
    alloc: Global,
    edge: &CheckedEdge,
    pair: &Pair,
    answers: &mut A,
) -> Result<IndexSet<ObjectId>, Stop>
    requires { (A.seen answers.old).over ≡ false }
    ensures objects { IfOk result (λ objects. objects.keys ≡ found_sources (A.seen answers.old).told edge.now pair.now) }
    ensures asks { Asks (A.seen answers.old) (source_finder edge.now pair.now) result (A.seen answers.new) }
{
    if edge.object_edge.is_some() {
        return objects_at(alloc, &Unit::Source { pair: *pair }, answers);
    }
    Ok(alone(alloc, pair.object)?)
}

fn alone(alloc: Global, object: ObjectId) -> Result<IndexSet<ObjectId>, AllocError>
    ensures { IfOk result (λ objects. objects.keys ≡ object ∷ []) }
{
    let mut objects = IndexSet::new(alloc);
    objects.insert_full(object)?;
    Ok(objects)
}

/// The found target objects; the finder is asked.
pub fn found_targets<A: Answers>(
    alloc: Global,
    pair: &Pair,
    answers: &mut A,
) -> Result<IndexSet<ObjectId>, Stop>
    requires { (A.seen answers.old).over ≡ false }
    ensures objects { IfOk result (λ objects. objects.keys ≡ found_targets (A.seen answers.old).told pair.now) }
    ensures asks { Asks (A.seen answers.old) (Target pair.now ∷ []) result (A.seen answers.new) }
{
    objects_at(alloc, &Unit::Target { pair: *pair }, answers)
}
