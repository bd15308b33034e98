ghost use Rattle.std.specs.Prelude.{◌≡◌, [], ◌∷◌, false, IfOk};
ghost use Rattle.wb_answers.specs.Seen.{Asks};
ghost use Rattle.wb_nodes.specs.Grounds.{HasClass, scene};
ghost use Rattle.wb_nodes.specs.Nodes.{candidates_at, candidates_by, child, fitting, parent_of};

use crate::grounds::{Grounds, fits};
use std::alloc::{AllocError, Global};
use wb_answers::{Answers, Stop, objects_of};
use wb_base::List;
use wb_diagram::{Key, Pair, Unit};
use wb_metamodel::ObjectId;
use wb_spec_check::CheckedNode;

/// The keys of a mapping's candidates under a path, each object at its first place; their unit is asked.
#[tactic(auto, unfolding(crate::specs::Nodes::candidates_by))]
pub fn candidates_by<A: Answers>(
    grounds: &Grounds<'_>,
    path: &[Pair],
    number: u32,
    node: &CheckedNode,
    answers: &mut A,
) -> Result<Vec<Key>, Stop>
    requires class { HasClass grounds.now node.now }
    requires fine { (A.seen answers.old).over ≡ false }
    ensures keys { IfOk result (λ keys. keys.items ≡ candidates_by (scene grounds.now) (A.seen answers.old).told path.now number node.now) }
    ensures asks { Asks (A.seen answers.old) (candidates_at path.now number ∷ []) result (A.seen answers.new) }
{
    let unit = Unit::Candidates {
        mapping: number,
        parent: parent_of(grounds.alloc, path)?,
    };
    let answer = answers.answer(grounds.alloc, &unit)?;
    let objects = objects_of(grounds.alloc, &answer)?;
    Ok(fitting(grounds, path, number, node, objects.as_slice())?)
}

// The key of the path, which names no element where it is empty.
fn parent_of(alloc: Global, path: &[Pair]) -> Result<Option<Key>, AllocError>
    ensures { IfOk result (λ parent. parent ≡ parent_of path.now) }
{
    if path.is_empty() {
        return Ok(None);
    }
    let pairs = List::from_vec(path.to_vec(alloc)?);
    Ok(Some(Key { pairs }))
}

// The key of an object under a path.
fn child(alloc: Global, path: &[Pair], number: u32, object: ObjectId) -> Result<Key, AllocError>
    ensures { IfOk result (λ key. key ≡ child path.now number object) }
{
    let mut pairs = path.to_vec(alloc)?;
    pairs.push(Pair {
        mapping: number,
        object,
    })?;
    Ok(Key {
        pairs: List::from_vec(pairs),
    })
}

// The keys of those of the objects that can stand under the path.
fn fitting(
    grounds: &Grounds<'_>,
    path: &[Pair],
    number: u32,
    node: &CheckedNode,
    objects: &[ObjectId],
) -> Result<Vec<Key>, AllocError>
    requires { HasClass grounds.now node.now }
    ensures { IfOk result (λ keys. keys.items ≡ fitting (scene grounds.now) path.now number node.now objects.now) }
{
    let mut keys = Vec::new(grounds.alloc);
    for object in objects {
        if fits(grounds, path, number, node, *object) {
            keys.push(child(grounds.alloc, path, number, *object)?)?;
        }
    }
    Ok(keys)
}
