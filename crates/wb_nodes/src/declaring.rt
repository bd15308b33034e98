ghost use Rattle.std.specs.Prelude.{◌≡◌, [], ◌∷◌, ◌++◌, false, length, reverse, IfOk, OnOk};
ghost use Rattle.wb_spec_check.specs.Checked.{IsCheckedBy};
ghost use Rattle.wb_answers.specs.Limits.{AsksUpTo};
ghost use Rattle.wb_answers.specs.Seen.{Asks};
ghost use Rattle.wb_nodes.specs.Grounds.{IsSound, scene};
ghost use Rattle.wb_nodes.specs.Nodes.{children, node_units, nodes, scene_of, units_under};

use crate::children::children;
use crate::grounds::Grounds;
use crate::marks::marks;
use std::alloc::Global;
use wb_answers::{Answers, Stop};
use wb_base::List;
use wb_diagram::Key;
use wb_model::Model;
use wb_spec_check::CheckedViewpoint;

/// How many elements are declared at most.
const LIMIT: usize = 100_000;

/// The keys of the declared elements, parents before their children; the units that declare them are asked, parent by parent.
///
/// `TooLarge` comes also where more than 100,000 elements are declared.
pub fn declare_nodes<A: Answers>(
    alloc: Global,
    spec: &CheckedViewpoint,
    model: &Model,
    shown: &[Key],
    answers: &mut A,
) -> Result<List<Key>, Stop>
    requires checked { IsCheckedBy model.now.metamodel spec.now }
    requires fine { (A.seen answers.old).over ≡ false }
    ensures nodes { IfOk result (λ keys. keys ≡ nodes (scene_of spec.now model.now shown.now) (A.seen answers.old).told) }
    ensures asks { AsksUpTo (A.seen answers.old) (node_units (scene_of spec.now model.now shown.now) (A.seen answers.old).told) (length (nodes (scene_of spec.now model.now shown.now) (A.seen answers.old).told)) result (A.seen answers.new) }
{
    let marks = marks(alloc, shown)?;
    let grounds = Grounds {
        alloc,
        spec,
        model,
        marks: &marks,
    };
    let keys = walk(&grounds, answers)?;
    Ok(List::from_vec(keys))
}

// Goes over the elements; of those that wait the last comes first.
fn walk<A: Answers>(grounds: &Grounds<'_>, answers: &mut A) -> Result<Vec<Key>, Stop>
    requires sound { IsSound grounds.now }
    requires fine { (A.seen answers.old).over ≡ false }
    ensures nodes { IfOk result (λ keys. keys.items ≡ nodes (scene grounds.now) (A.seen answers.old).told) }
    ensures asks { AsksUpTo (A.seen answers.old) (node_units (scene grounds.now) (A.seen answers.old).told) (length (nodes (scene grounds.now) (A.seen answers.old).told)) result (A.seen answers.new) }
{
    let mut nodes = Vec::new(grounds.alloc);
    let mut waiting = children(grounds, &[], answers)?;
    waiting.reverse();
    while let Some(key) = waiting.pop() {
        if waiting.len() >= LIMIT - nodes.len() {
            return Err(Stop::TooLarge);
        }
        visit(grounds, key, &mut nodes, &mut waiting, answers)?;
    }
    Ok(nodes)
}

// Declares an element; those directly in it wait next.
fn visit<A: Answers>(
    grounds: &Grounds<'_>,
    key: Key,
    nodes: &mut Vec<Key>,
    waiting: &mut Vec<Key>,
    answers: &mut A,
) -> Result<(), Stop>
    requires sound { IsSound grounds.now }
    requires fine { (A.seen answers.old).over ≡ false }
    ensures nodes { OnOk result (nodes.new.items ≡ nodes.old.items ++ key ∷ []) }
    ensures waiting { OnOk result (waiting.new.items ≡ waiting.old.items ++ reverse (children (scene grounds.now) (A.seen answers.old).told key.pairs)) }
    ensures asks { Asks (A.seen answers.old) (units_under (scene grounds.now) (A.seen answers.old).told key.pairs) result (A.seen answers.new) }
{
    let mut inner = children(grounds, key.pairs.as_slice(), answers)?;
    inner.reverse();
    waiting.append(&mut inner)?;
    nodes.push(key)?;
    Ok(())
}
