ghost use Rattle.std.specs.Prelude.{◌≡◌, [], ◌∷◌, ◌++◌, false, filter, IfOk, OnOk};
ghost use Rattle.std.specs.List.{flat_map};
ghost use Rattle.wb_answers.specs.Seen.{Asks};
ghost use Rattle.wb_nodes.specs.Grounds.{HasClass, IsSound, kept, scene};
ghost use Rattle.wb_nodes.specs.Nodes.{child_mappings, children, children_by, children_with, is_declared, mappings_inside, passes, precondition_at, units_by, units_under, units_with};

use crate::candidates::candidates_by;
use crate::grounds::{Grounds, is_conditional, is_shown, node_mapping};
use std::alloc::{AllocError, Global};
use wb_answers::{Answers, Stop, is_true};
use wb_base::Duplicate;
use wb_diagram::{Key, Pair, Unit};
use wb_spec_check::{CheckedNode, CheckedViewpoint};

/// What is declared directly under a path, in order; the units there are asked.
#[tactic(auto, unfolding(crate::specs::Nodes::children, crate::specs::Nodes::units_under))]
pub fn children<A: Answers>(
    grounds: &Grounds<'_>,
    path: &[Pair],
    answers: &mut A,
) -> Result<Vec<Key>, Stop>
    requires sound { IsSound grounds.now }
    requires fine { (A.seen answers.old).over ≡ false }
    ensures keys { IfOk result (λ keys. keys.items ≡ children (scene grounds.now) (A.seen answers.old).told path.now) }
    ensures asks { Asks (A.seen answers.old) (units_under (scene grounds.now) (A.seen answers.old).told path.now) result (A.seen answers.new) }
{
    let numbers = child_mappings(grounds.alloc, grounds.spec, path)?;
    let mut found = Vec::new(grounds.alloc);
    declare_each(grounds, path, numbers.as_slice(), &mut found, answers)?;
    Ok(found)
}

// The mappings of what may stand directly under a path.
#[tactic(auto, unfolding(crate::specs::Nodes::child_mappings))]
fn child_mappings(
    alloc: Global,
    spec: &CheckedViewpoint,
    path: &[Pair],
) -> Result<Vec<u32>, AllocError>
    ensures { IfOk result (λ numbers. numbers.items ≡ child_mappings spec.now path.now) }
{
    let Some(own) = path.last() else {
        return spec.parts().top.as_slice().to_vec(alloc);
    };
    match node_mapping(spec, own.mapping) {
        Some(node) => mappings_inside(alloc, node),
        None => Ok(Vec::new(alloc)),
    }
}

fn mappings_inside(alloc: Global, node: &CheckedNode) -> Result<Vec<u32>, AllocError>
    ensures { IfOk result (λ numbers. numbers.items ≡ mappings_inside node.now) }
{
    let mut numbers = Vec::new(alloc);
    numbers.extend_from_slice(node.children.as_slice())?;
    numbers.extend_from_slice(node.borders.as_slice())?;
    Ok(numbers)
}

// Puts what these mappings declare directly under a path last.
fn declare_each<A: Answers>(
    grounds: &Grounds<'_>,
    path: &[Pair],
    numbers: &[u32],
    found: &mut Vec<Key>,
    answers: &mut A,
) -> Result<(), Stop>
    requires sound { IsSound grounds.now }
    requires fine { (A.seen answers.old).over ≡ false }
    ensures found { OnOk result (found.new.items ≡ found.old.items ++ flat_map (children_by (scene grounds.now) (A.seen answers.old).told path.now) numbers.now) }
    ensures asks { Asks (A.seen answers.old) (flat_map (units_by (scene grounds.now) (A.seen answers.old).told path.now) numbers.now) result (A.seen answers.new) }
{
    for number in numbers {
        declare_by(grounds, path, *number, found, answers)?;
    }
    Ok(())
}

// Puts what a mapping declares directly under a path last; the mapping's units are asked.
#[tactic(auto, using(wb_answers::proofs::SeenLaws::after_none), unfolding(crate::specs::Nodes::children_by, crate::specs::Nodes::units_by))]
fn declare_by<A: Answers>(
    grounds: &Grounds<'_>,
    path: &[Pair],
    number: u32,
    found: &mut Vec<Key>,
    answers: &mut A,
) -> Result<(), Stop>
    requires sound { IsSound grounds.now }
    requires fine { (A.seen answers.old).over ≡ false }
    ensures found { OnOk result (found.new.items ≡ found.old.items ++ children_by (scene grounds.now) (A.seen answers.old).told path.now number) }
    ensures asks { Asks (A.seen answers.old) (units_by (scene grounds.now) (A.seen answers.old).told path.now number) result (A.seen answers.new) }
{
    match node_mapping(grounds.spec, number) {
        Some(node) => declare_with(grounds, path, number, node, found, answers),
        None => Ok(()),
    }
}

fn declare_with<A: Answers>(
    grounds: &Grounds<'_>,
    path: &[Pair],
    number: u32,
    node: &CheckedNode,
    found: &mut Vec<Key>,
    answers: &mut A,
) -> Result<(), Stop>
    requires class { HasClass grounds.now node.now }
    requires fine { (A.seen answers.old).over ≡ false }
    ensures found { OnOk result (found.new.items ≡ found.old.items ++ children_with (scene grounds.now) (A.seen answers.old).told path.now number node.now) }
    ensures asks { Asks (A.seen answers.old) (units_with (scene grounds.now) (A.seen answers.old).told path.now number node.now) result (A.seen answers.new) }
{
    let candidates = candidates_by(grounds, path, number, node, answers)?;
    declare_among(grounds, number, node, candidates.as_slice(), found, answers)
}

// Puts those of the candidates last that are declared.
fn declare_among<A: Answers>(
    grounds: &Grounds<'_>,
    number: u32,
    node: &CheckedNode,
    candidates: &[Key],
    found: &mut Vec<Key>,
    answers: &mut A,
) -> Result<(), Stop>
    requires { (A.seen answers.old).over ≡ false }
    ensures found { OnOk result (found.new.items ≡ found.old.items ++ filter (is_declared (scene grounds.now) (A.seen answers.old).told number node.now) candidates.now) }
    ensures asks { Asks (A.seen answers.old) (flat_map (precondition_at (scene grounds.now) number) candidates.now) result (A.seen answers.new) }
{
    for key in candidates {
        take_up(grounds, number, node, key, found, answers)?;
    }
    Ok(())
}

// Puts a candidate last if it is declared.
fn take_up<A: Answers>(
    grounds: &Grounds<'_>,
    number: u32,
    node: &CheckedNode,
    key: &Key,
    found: &mut Vec<Key>,
    answers: &mut A,
) -> Result<(), Stop>
    requires { (A.seen answers.old).over ≡ false }
    ensures found { OnOk result (found.new.items ≡ found.old.items ++ kept (scene grounds.now) (A.seen answers.old).told number node.now key.now) }
    ensures asks { Asks (A.seen answers.old) (precondition_at (scene grounds.now) number key.now) result (A.seen answers.new) }
{
    let passed = passes(grounds, number, key, answers)?;
    if passed && is_shown(grounds, node, key) {
        found.push(key.copy(grounds.alloc)?)?;
    }
    Ok(())
}

// Is the precondition true, if there is one? It is then asked.
#[tactic(auto, using(wb_answers::proofs::SeenLaws::after_none))]
fn passes<A: Answers>(
    grounds: &Grounds<'_>,
    number: u32,
    key: &Key,
    answers: &mut A,
) -> Result<bool, Stop>
    requires { (A.seen answers.old).over ≡ false }
    ensures value { IfOk result (λ b. b ≡ passes (scene grounds.now) (A.seen answers.old).told number key.now) }
    ensures asks { Asks (A.seen answers.old) (precondition_at (scene grounds.now) number key.now) result (A.seen answers.new) }
{
    if !is_conditional(grounds.spec, number) {
        return Ok(true);
    }
    let key = key.copy(grounds.alloc)?;
    let answer = answers.answer(grounds.alloc, &Unit::Precondition { key })?;
    Ok(is_true(&answer))
}
