ghost use Rattle.std.specs.Prelude.{◌≡◌, [], ◌∷◌, ◌++◌, false, flat_map, All, IfOk, OnOk};
ghost use Rattle.wb_spec_check.specs.Checked.{IsCheckedBy};
ghost use Rattle.wb_answers.specs.Limits.{AsksUpTo};
ghost use Rattle.wb_answers.specs.Seen.{Asks};
ghost use Rattle.wb_looks.specs.Looks.{HasMapping, look, look_units};
ghost use Rattle.wb_nodes.specs.Nodes.{scene_of};
ghost use Rattle.wb_refresh.specs.Declarations.{AreDeclared, AreShown};
ghost use Rattle.wb_refresh.specs.Diagrams.{all_keys, looks_at, size_of, units_at, units_of};

use crate::declared::{Declared, Shown};
use std::alloc::{AllocError, Global};
use wb_answers::{Answers, Stop};
use wb_base::{Duplicate, List};
use wb_diagram::{AnyKey, EdgeKey, Key, Look};
use wb_edges::declare_edges;
use wb_looks::{filtered, look};
use wb_metamodel::Metamodel;
use wb_model::Model;
use wb_nodes::declare_nodes;
use wb_spec_check::CheckedViewpoint;

/// What a viewpoint declares over a model; all units are asked, in order.
#[tactic(auto, unfolding(crate::specs::Diagrams::units_of))]
pub fn declare<A: Answers>(
    alloc: Global,
    spec: &CheckedViewpoint,
    model: &Model,
    shown: &[Key],
    answers: &mut A,
) -> Result<Declared, Stop>
    requires checked { IsCheckedBy model.now.metamodel spec.now }
    requires metamodel { (A.seen answers.old).metamodel ≡ model.now.metamodel }
    requires fine { (A.seen answers.old).over ≡ false }
    ensures declared { IfOk result (AreDeclared (scene_of spec.now model.now shown.now) (A.seen answers.old).told) }
    ensures asks { let s = scene_of spec.now model.now shown.now in AsksUpTo (A.seen answers.old) (units_of s (A.seen answers.old).told) (size_of s (A.seen answers.old).told) result (A.seen answers.new) }
{
    let nodes = declare_nodes(alloc, spec, model, shown, answers)?;
    let edges = declare_edges(alloc, spec, model, nodes.as_slice(), answers)?;
    let shown = show(
        alloc,
        spec,
        model.metamodel(),
        nodes.as_slice(),
        edges.as_slice(),
        answers,
    )?;
    Ok(Declared {
        nodes,
        edges,
        shown,
    })
}

// How these elements and edges look, and what filters hide.
fn show<A: Answers>(
    alloc: Global,
    spec: &CheckedViewpoint,
    metamodel: &Metamodel,
    nodes: &[Key],
    edges: &[EdgeKey],
    answers: &mut A,
) -> Result<Shown, Stop>
    requires mappings { All (HasMapping spec.now) (all_keys nodes.now edges.now) }
    requires metamodel { metamodel.now ≡ (A.seen answers.old).metamodel }
    requires fine { (A.seen answers.old).over ≡ false }
    ensures shown { IfOk result (AreShown spec.now metamodel.now (A.seen answers.old).told (all_keys nodes.now edges.now)) }
    ensures asks { Asks (A.seen answers.old) (units_at spec.now (A.seen answers.old).told (all_keys nodes.now edges.now)) result (A.seen answers.new) }
{
    let keys = all_keys(alloc, nodes, edges)?;
    let looks = looks(alloc, spec, metamodel, keys.as_slice(), answers)?;
    let filtered = filtered(alloc, spec, keys.as_slice(), answers)?;
    Ok(Shown { looks, filtered })
}

// The keys of elements, and then those of edges.
fn all_keys(alloc: Global, nodes: &[Key], edges: &[EdgeKey]) -> Result<Vec<AnyKey>, AllocError>
    ensures { IfOk result (λ keys. keys.items ≡ all_keys nodes.now edges.now) }
{
    let mut keys = Vec::new(alloc);
    for key in nodes {
        keys.push(AnyKey::Node(key.copy(alloc)?))?;
    }
    for key in edges {
        keys.push(AnyKey::Edge(key.copy(alloc)?))?;
    }
    Ok(keys)
}

// The looks of these keys.
fn looks<A: Answers>(
    alloc: Global,
    spec: &CheckedViewpoint,
    metamodel: &Metamodel,
    keys: &[AnyKey],
    answers: &mut A,
) -> Result<List<Look>, Stop>
    requires mappings { All (HasMapping spec.now) keys.now }
    requires metamodel { metamodel.now ≡ (A.seen answers.old).metamodel }
    requires fine { (A.seen answers.old).over ≡ false }
    ensures looks { IfOk result (λ looks. looks ≡ looks_at spec.now metamodel.now (A.seen answers.old).told keys.now) }
    ensures asks { Asks (A.seen answers.old) (flat_map (look_units spec.now (A.seen answers.old).told) keys.now) result (A.seen answers.new) }
{
    let mut looks = Vec::new(alloc);
    for key in keys {
        put_look(alloc, spec, metamodel, key, &mut looks, answers)?;
    }
    Ok(List::from_vec(looks))
}

// Puts the look of a key last.
fn put_look<A: Answers>(
    alloc: Global,
    spec: &CheckedViewpoint,
    metamodel: &Metamodel,
    key: &AnyKey,
    looks: &mut Vec<Look>,
    answers: &mut A,
) -> Result<(), Stop>
    requires mapping { HasMapping spec.now key.now }
    requires metamodel { metamodel.now ≡ (A.seen answers.old).metamodel }
    requires fine { (A.seen answers.old).over ≡ false }
    ensures looks { OnOk result (looks.new.items ≡ looks.old.items ++ look spec.now metamodel.now (A.seen answers.old).told key.now ∷ []) }
    ensures asks { Asks (A.seen answers.old) (look_units spec.now (A.seen answers.old).told key.now) result (A.seen answers.new) }
{
    let look = look(alloc, spec, metamodel, key, answers)?;
    looks.push(look)?;
    Ok(())
}
