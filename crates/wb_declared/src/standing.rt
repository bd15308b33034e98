ghost use Rattle.std.specs.Prelude.{◌≡◌, ◌<◌, ◌++◌, ◌∷◌, [], true, nat_eq, length, IfOk};
ghost use Rattle.std.specs.List.{list_any};
ghost use Rattle.std.specs.Option.{option_map_or};
ghost use Rattle.wb_spec_check.specs.Checked.{IsCheckedBy};
ghost use Rattle.wb_answers.specs.Meanings.{objects_of};
ghost use Rattle.wb_answers.specs.SameKeys.{among};
ghost use Rattle.wb_nodes.specs.Nodes.{candidates_at, is_cut, parent_of};
ghost use Rattle.wb_refresh.specs.Openings.{IsOpened};
ghost use Rattle.wb_refresh.specs.Subjects.{subject};
ghost use Rattle.wb_declared.specs.Declarations.{declared_nodes};
ghost use Rattle.wb_declared.specs.Standing.{fits_under, gives_object, gives_true, is_admitted, key_under, leads_to, may_stand, meets, would_stand};

use crate::mappings::{is_conditional, may_stand, node_mapping};
use std::alloc::{AllocError, Global};
use wb_answers::{is_true, objects_of};
use wb_aql_eval::Evaluator;
use wb_aql_values::Answer;
use wb_base::List;
use wb_diagram::{Key, Pair, Unit};
use wb_metamodel::ObjectId;
use wb_model::Model;
use wb_refresh::Refresh;
use wb_spec_check::{CheckedNode, CheckedViewpoint};

/// Would an element of this key be declared if the key were marked shown? Nothing is evaluated.
///
/// The diagram is that of the model and of the marks that there are; it has the answers of every unit that decides it.
pub fn would_be_declared<E: Evaluator>(
    alloc: Global,
    spec: &CheckedViewpoint,
    model: &Model,
    _root: ObjectId,
    _shown: &[Key],
    diagram: &Refresh<E>,
    key: &Key,
) -> Result<bool, AllocError>
    requires checked { IsCheckedBy model.now.metamodel spec.now }
    requires opened { IsOpened E.outcome_by (subject spec.now model.now _root _shown.now) diagram.now }
    ensures { IfOk result (λ b. b ≡ among (declared_nodes E.outcome_by (subject spec.now model.now _root (_shown.now ++ key.now ∷ []))) key.now) }
{
    match key.pairs.as_slice().split_last() {
        Some((own, path)) => would_stand(alloc, spec, model, diagram, path, *own),
        None => Ok(false),
    }
}

// Would an element of this pair be declared under a path, if it were marked shown?
fn would_stand<E>(
    alloc: Global,
    spec: &CheckedViewpoint,
    model: &Model,
    diagram: &Refresh<E>,
    path: &[Pair],
    own: Pair,
) -> Result<bool, AllocError>
    requires { IsCheckedBy model.now.metamodel spec.now }
    ensures { IfOk result (λ b. b ≡ would_stand spec.now model.now diagram.now path.now own) }
{
    if !leads_to(alloc, diagram.nodes(), path)? || !may_stand(spec, path, own.mapping) {
        return Ok(false);
    }
    match node_mapping(spec, own.mapping) {
        Some(node) => is_admitted(alloc, spec, model, diagram, path, own, node),
        None => Ok(false),
    }
}

// The key of the path, which names no element where it is empty.
fn parent_of(alloc: Global, path: &[Pair]) -> Result<Option<Key>, AllocError>
    ensures { IfOk result (λ parent. parent ≡ parent_of path.now) }
{
    if path.is_empty() {
        return Ok(None);
    }
    let pairs = List::from_vec(path.to_vec(alloc)?);
    Ok(Some(Key { pairs }))
}

fn leads_to(alloc: Global, nodes: &[Key], path: &[Pair]) -> Result<bool, AllocError>
    ensures { IfOk result (λ b. b ≡ leads_to nodes.now path.now) }
{
    let parent = parent_of(alloc, path)?;
    Ok(is_one_of(nodes, &parent))
}

// The diagram is no element, and always there.
fn is_one_of(nodes: &[Key], parent: &Option<Key>) -> bool
    ensures { result ≡ option_map_or (among nodes.now) parent.now true }
{
    match parent {
        Some(key) => nodes.contains(key),
        None => true,
    }
}

fn is_admitted<E>(
    alloc: Global,
    spec: &CheckedViewpoint,
    model: &Model,
    diagram: &Refresh<E>,
    path: &[Pair],
    own: Pair,
    node: &CheckedNode,
) -> Result<bool, AllocError>
    requires { node.now.objects.domain < length model.now.metamodel.classes }
    ensures { IfOk result (λ b. b ≡ is_admitted spec.now model.now diagram.now path.now own node.now) }
{
    if !fits_under(model, path, node, own) || !is_candidate(alloc, diagram, path, own)? {
        return Ok(false);
    }
    let key = key_under(alloc, path, own)?;
    Ok(meets(spec, diagram, own.mapping, key))
}

fn key_under(alloc: Global, path: &[Pair], own: Pair) -> Result<Key, AllocError>
    ensures { IfOk result (λ key. key ≡ key_under path.now own) }
{
    let mut pairs = path.to_vec(alloc)?;
    pairs.push(own)?;
    Ok(Key {
        pairs: List::from_vec(pairs),
    })
}

fn fits_under(model: &Model, path: &[Pair], node: &CheckedNode, own: Pair) -> bool
    requires { node.now.objects.domain < length model.now.metamodel.classes }
    ensures { result ≡ fits_under model.now path.now node.now own }
{
    let object = own.object;
    let cut = is_cut(path, own);
    model.is_of_class(object, node.objects.domain) && !cut
}

// Does the pair stand in the path, or has the path 32 pairs already?
fn is_cut(path: &[Pair], pair: Pair) -> bool
    ensures { result ≡ is_cut path.now pair }
{
    path.contains(&pair) || path.len() >= 32
}

fn is_candidate<E>(
    alloc: Global,
    diagram: &Refresh<E>,
    path: &[Pair],
    own: Pair,
) -> Result<bool, AllocError>
    ensures { IfOk result (λ b. b ≡ gives_object diagram.now (candidates_at path.now own.mapping) own.object) }
{
    let unit = Unit::Candidates {
        mapping: own.mapping,
        parent: parent_of(alloc, path)?,
    };
    gives_object(alloc, diagram, &unit, own.object)
}

fn gives_object<E>(
    alloc: Global,
    diagram: &Refresh<E>,
    unit: &Unit,
    object: ObjectId,
) -> Result<bool, AllocError>
    ensures { IfOk result (λ b. b ≡ gives_object diagram.now unit.now object) }
{
    match diagram.answer(unit) {
        Some(answer) => has_object(alloc, answer, object),
        None => Ok(false),
    }
}

fn has_object(alloc: Global, answer: &Answer, object: ObjectId) -> Result<bool, AllocError>
    ensures { IfOk result (λ b. b ≡ list_any (nat_eq object) (objects_of answer.now)) }
{
    let objects = objects_of(alloc, answer)?;
    Ok(objects.contains(&object))
}

// Is the precondition of the key true, if its mapping has one?
fn meets<E>(spec: &CheckedViewpoint, diagram: &Refresh<E>, number: u32, key: Key) -> bool
    ensures { result ≡ meets spec.now diagram.now number key }
{
    if !is_conditional(spec, number) {
        return true;
    }
    gives_true(diagram, &Unit::Precondition { key })
}

fn gives_true<E>(diagram: &Refresh<E>, unit: &Unit) -> bool
    ensures { result ≡ gives_true diagram.now unit.now }
{
    match diagram.answer(unit) {
        Some(answer) => is_true(answer),
        None => false,
    }
}
