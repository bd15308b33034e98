ghost use Rattle.std.specs.Prelude.{◌≡◌, [], ◌∷◌, ◌<◌, false, filter, length, IfOk};
ghost use Rattle.wb_validity.specs.Valid.{conforms_to};
ghost use Rattle.wb_diagram.specs.declared.units.Unit.TheVariants.{EdgeCandidates};
ghost use Rattle.wb_answers.specs.Seen.{Asks};
ghost use Rattle.wb_edges.specs.Edges.{candidates_at, candidates_by, is_of, objects_by, semantic};
ghost use Rattle.wb_edges.specs.Grounds.{HasClass, HasClassOfCandidates, scene};

use crate::ends::{is_of, own_pair};
use crate::found::objects_at;
use crate::grounds::Grounds;
use indexmap::IndexSet;
use std::alloc::{AllocError, Global};
use wb_answers::{Answers, Stop};
use wb_diagram::{Key, Unit};
use wb_metamodel::{ClassId, ObjectId};
use wb_spec_check::{CheckedEdge, CheckedSource};

/// The objects that the edges of a mapping stand for; its candidates are asked where it has such.
#[tactic(auto, using(wb_answers::proofs::SeenLaws::after_none), unfolding(crate::specs::Edges::semantic))]
pub fn semantic<A: Answers>(
    grounds: &Grounds<'_>,
    number: u32,
    edge: &CheckedEdge,
    answers: &mut A,
) -> Result<Vec<ObjectId>, Stop>
    requires class { HasClassOfCandidates grounds.now edge.now }
    requires fine { (A.seen answers.old).over ≡ false }
    ensures objects { IfOk result (λ objects. objects.items ≡ semantic (scene grounds.now) (A.seen answers.old).told number edge.now) }
    ensures asks { Asks (A.seen answers.old) (candidates_at number edge.now) result (A.seen answers.new) }
{
    match &edge.object_edge {
        Some(source) => candidates_by(grounds, number, source, answers),
        None => Ok(objects_by(grounds.alloc, edge.sources.as_slice(), grounds.nodes)?),
    }
}

// The candidates that are live and of the mapping's class; they are asked.
fn candidates_by<A: Answers>(
    grounds: &Grounds<'_>,
    number: u32,
    source: &CheckedSource,
    answers: &mut A,
) -> Result<Vec<ObjectId>, Stop>
    requires class { HasClass grounds.now source.now }
    requires fine { (A.seen answers.old).over ≡ false }
    ensures objects { IfOk result (λ objects. objects.items ≡ candidates_by (scene grounds.now) (A.seen answers.old).told number source.now) }
    ensures asks { Asks (A.seen answers.old) (EdgeCandidates number ∷ []) result (A.seen answers.new) }
{
    let unit = Unit::EdgeCandidates { mapping: number };
    let objects = objects_at(grounds.alloc, &unit, answers)?;
    Ok(of_class(grounds, source.objects.domain, objects.as_slice())?)
}

// Those of the objects that are live and of the class.
fn of_class(
    grounds: &Grounds<'_>,
    class: ClassId,
    objects: &[ObjectId],
) -> Result<Vec<ObjectId>, AllocError>
    requires { class < length grounds.now.model.now.metamodel.classes }
    ensures { IfOk result (λ kept. kept.items ≡ filter (conforms_to grounds.now.model.now class) objects.now) }
{
    let mut kept = Vec::new(grounds.alloc);
    for object in objects {
        if grounds.model.is_of_class(*object, class) {
            kept.push(*object)?;
        }
    }
    Ok(kept)
}

// The objects of the declared elements of these mappings, each once.
fn objects_by(alloc: Global, mappings: &[u32], nodes: &[Key]) -> Result<Vec<ObjectId>, AllocError>
    ensures { IfOk result (λ objects. objects.items ≡ objects_by (filter (is_of mappings.now) nodes.now)) }
{
    let mut objects = IndexSet::new(alloc);
    for key in nodes {
        if is_of(mappings, key) {
            objects.insert_full(own_pair(key).object)?;
        }
    }
    objects.into_iter().collect(alloc)
}
