ghost use Rattle.std.specs.Prelude.{◌≡◌, if◌then◌else◌, IfOk, OnOk};
ghost use Rattle.wb_base.specs.Names.{same_name};
ghost use Rattle.wb_tools.specs.Bindings.{bound, context_with, in_context, inside_with, joined, named, no_variables, others, with_variable};

use std::alloc::{AllocError, Global};
use wb_aql_eval::Env;
use wb_aql_values::Value;
use wb_base::{Duplicate, List, Text};
use wb_json::Name;
use wb_metamodel::ObjectId;
use wb_store::Scalar;

/// The variables where an object is the context.
pub fn in_context(alloc: Global, o: ObjectId, env: &Env) -> Result<Env, AllocError>
    ensures { IfOk result (λ nearer. nearer ≡ in_context o env.now) }
{
    bound(alloc, "self", Value::One(Scalar::Object(o)), env)
}

/// The same with one variable more, which an operation binds.
pub fn inside_with(
    alloc: Global,
    name: &Name,
    x: &Scalar,
    o: ObjectId,
    env: &Env,
) -> Result<Env, AllocError>
    ensures { IfOk result (λ nearer. nearer ≡ inside_with name.now x.now o env.now) }
{
    let nearer = in_context(alloc, o, env)?;
    named(alloc, name, x, nearer)
}

// One variable more, unless it is named `self`.
fn named(alloc: Global, name: &Name, x: &Scalar, env: Env) -> Result<Env, AllocError>
    ensures { IfOk result (λ nearer. nearer ≡ named name.now x.now env) }
{
    if name.as_str().as_bytes() == "self".as_bytes() {
        Ok(env)
    } else {
        bound(alloc, name.as_str(), Value::One(x.copy(alloc)?), &env)
    }
}

/// The context of a turn of this item.
pub fn context_with(x: &Scalar, o: ObjectId) -> ObjectId
    ensures { result ≡ context_with x.now o }
{
    match x {
        Scalar::Object(p) => *p,
        Scalar::Int(_) => o,
        Scalar::Bool(_) => o,
        Scalar::Text(_) => o,
        Scalar::Literal(_, _) => o,
    }
}

// One variable more, which hides one of the same name.
#[tactic(auto, unfolding(crate::specs::Bindings::bound))]
fn bound(alloc: Global, name: &str, value: Value, env: &Env) -> Result<Env, AllocError>
    ensures { IfOk result (λ nearer. nearer ≡ bound name.now value env.now) }
{
    let mut nearer = alone(alloc, name, value)?;
    put_others(
        alloc,
        name,
        env.names.as_slice(),
        env.values.as_slice(),
        &mut nearer,
    )?;
    Ok(nearer)
}

// A variable alone.
fn alone(alloc: Global, name: &str, value: Value) -> Result<Env, AllocError>
    ensures { IfOk result (λ env. env ≡ with_variable name.now value no_variables) }
{
    let mut env = Env {
        names: List::new(alloc),
        values: List::new(alloc),
    };
    env.names.push(Text::from_str(alloc, name)?)?;
    env.values.push(value)?;
    Ok(env)
}

// Puts the variables of other names behind those that are there.
#[tactic(auto, unfolding(crate::specs::Bindings::others))]
fn put_others(
    alloc: Global,
    name: &str,
    names: &[Text],
    values: &[Value],
    nearer: &mut Env,
) -> Result<(), AllocError>
    ensures { OnOk result (nearer.new ≡ joined nearer.old (others name.now names.now values.now)) }
{
    match names {
        [] => Ok(()),
        [known, names @ ..] => match values {
            [] => Ok(()),
            [value, values @ ..] => {
                put_other(alloc, name, known, value, nearer)?;
                put_others(alloc, name, names, values, nearer)
            }
        },
    }
}

// Puts a variable last, if it has another name.
fn put_other(
    alloc: Global,
    name: &str,
    known: &Text,
    value: &Value,
    nearer: &mut Env,
) -> Result<(), AllocError>
    ensures { OnOk result (nearer.new ≡ (if same_name name.now known.now then nearer.old else joined nearer.old (with_variable known.now value.now no_variables))) }
{
    if name.as_bytes() != known.as_slice() {
        nearer.names.push(known.copy(alloc)?)?;
        nearer.values.push(value.copy(alloc)?)?;
    }
    Ok(())
}
