ghost use Rattle.std.specs.Prelude.{◌≡◌, IfOk, OnOk};
ghost use Rattle.std.specs.List.{list_any};
ghost use Rattle.wb_base.specs.Names.{same_name};
ghost use Rattle.wb_metamodel.specs.Metamodel.{Metamodel};
ghost use Rattle.wb_aql_eval.specs.Outcomes.{Binds};
ghost use Rattle.wb_answers.specs.Environments.{container_of, environment_of, front, last_object, pairs_of_key, self_of, with_variable};
ghost use Rattle.wb_answers.specs.UnitExpressions.{IsUnitScope};

use std::alloc::{AllocError, Global};
use wb_aql_eval::Env;
use wb_aql_values::Value;
use wb_base::{List, Text};
use wb_diagram::{AnyKey, Pair, Unit};
use wb_metamodel::ObjectId;
use wb_store::Scalar;

/// The variables of a unit's expression: `self` and `container`, as far as its scope holds them.
#[tactic(auto, unfolding(crate::specs::Environments::environment_of))]
pub fn environment(
    alloc: Global,
    unit: &Unit,
    root: ObjectId,
    scope: &[Text],
) -> Result<Env, AllocError>
    ensures value { IfOk result (λ env. env ≡ environment_of root unit.now scope.now) }
    ensures binds { (mm : Metamodel) → IsUnitScope scope.now → IfOk result (Binds mm scope.now) }
{
    let objects = objects_of_unit(unit, root);
    let mut env = Env {
        names: List::new(alloc),
        values: List::new(alloc),
    };
    bind(alloc, &mut env, "self", objects.own, scope)?;
    bind(alloc, &mut env, "container", objects.container, scope)?;
    Ok(env)
}

// Binds a variable to an object, if the scope holds it.
fn bind(
    alloc: Global,
    env: &mut Env,
    name: &str,
    object: ObjectId,
    scope: &[Text],
) -> Result<(), AllocError>
    ensures { OnOk result (env.new ≡ with_variable scope.now env.old (name.now, object)) }
{
    if holds(scope, name) {
        env.names.push(Text::from_str(alloc, name)?)?;
        env.values.push(Value::One(Scalar::Object(object)))?;
    }
    Ok(())
}

fn holds(scope: &[Text], name: &str) -> bool
    ensures { result ≡ list_any (same_name name.now) scope.now }
{
    scope
        .iter()
        .any(|known| name.as_bytes() == known.as_slice())
}

// What a unit is about, and what it stands in.
#[derive(Clone, Copy)]
struct Objects {
    own: ObjectId,
    container: ObjectId,
}

#[tactic(auto, unfolding(crate::specs::Environments::self_of, crate::specs::Environments::container_of, crate::specs::Environments::pairs_of))]
fn objects_of_unit(unit: &Unit, root: ObjectId) -> Objects
    ensures own { result.own ≡ self_of root unit.now }
    ensures container { result.container ≡ container_of root unit.now }
{
    match unit {
        Unit::Candidates {
            mapping: _,
            parent: None,
        } => alone(root, root),
        Unit::Candidates {
            mapping: _,
            parent: Some(key),
        } => objects_of_path(key.pairs.as_slice(), root),
        Unit::Precondition { key } => objects_of_path(key.pairs.as_slice(), root),
        Unit::EdgeCandidates { mapping: _ } => alone(root, root),
        Unit::EdgePrecondition { pair } => alone(pair.object, root),
        Unit::Source { pair } => alone(pair.object, root),
        Unit::Target { pair } => alone(pair.object, root),
        Unit::Style { style: _, key } => objects_of_key(key, root),
        Unit::Label { style: _, key } => objects_of_key(key, root),
        Unit::Filter { filter: _, key } => objects_of_key(key, root),
    }
}

fn alone(own: ObjectId, root: ObjectId) -> Objects
    ensures own { result.own ≡ own }
    ensures container { result.container ≡ root }
{
    Objects {
        own,
        container: root,
    }
}

fn objects_of_key(key: &AnyKey, root: ObjectId) -> Objects
    ensures own { result.own ≡ last_object root (pairs_of_key key.now) }
    ensures container { result.container ≡ last_object root (front (pairs_of_key key.now)) }
{
    match key {
        AnyKey::Node(key) => objects_of_path(key.pairs.as_slice(), root),
        AnyKey::Edge(key) => alone(key.object, root),
    }
}

fn objects_of_path(pairs: &[Pair], root: ObjectId) -> Objects
    ensures own { result.own ≡ last_object root pairs.now }
    ensures container { result.container ≡ last_object root (front pairs.now) }
{
    if pairs.is_empty() {
        return alone(root, root);
    }
    Objects {
        own: last_object(pairs, root),
        container: last_object(&pairs[..pairs.len() - 1], root),
    }
}

// The object of the last pair, or the root element where there is none.
fn last_object(pairs: &[Pair], root: ObjectId) -> ObjectId
    ensures { result ≡ last_object root pairs.now }
{
    match pairs.last() {
        Some(pair) => pair.object,
        None => root,
    }
}
