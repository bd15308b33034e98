ghost use Rattle.std.specs.Prelude.{◌≡◌, [], ◌∷◌, IfOk, OnOk};
ghost use Rattle.wb_arguments.specs.Variables.{also, connected, created, deleted, dropped_to, edited, end_name, object, reconnected, variables, words};

use std::alloc::{AllocError, Global};
use wb_aql_eval::Env;
use wb_aql_values::Value;
use wb_base::{List, Text};
use wb_diagram::End;
use wb_metamodel::ObjectId;
use wb_store::Scalar;

/// The variables where an object is made in a container.
pub fn created(alloc: Global, container: ObjectId) -> Result<Env, AllocError>
    ensures { IfOk result (λ env. env ≡ created container) }
{
    alone(alloc, "container", container)
}

/// The variables where two elements are connected.
pub fn connected(alloc: Global, source: ObjectId, target: ObjectId) -> Result<Env, AllocError>
    ensures { IfOk result (λ env. env ≡ connected source target) }
{
    let mut env = alone(alloc, "source", source)?;
    bind_object(alloc, &mut env, "target", target)?;
    Ok(env)
}

/// The variables where an element is deleted.
pub fn deleted(alloc: Global, element: ObjectId) -> Result<Env, AllocError>
    ensures { IfOk result (λ env. env ≡ deleted element) }
{
    alone(alloc, "element", element)
}

/// The variables where the text of an element is edited.
pub fn edited(alloc: Global, element: ObjectId, text: &Text) -> Result<Env, AllocError>
    ensures { IfOk result (λ env. env ≡ edited element text.now) }
{
    let mut env = alone(alloc, "element", element)?;
    bind_text(alloc, &mut env, "arg0", text.as_str())?;
    Ok(env)
}

/// The variables where an end of an edge goes to another element.
pub fn reconnected(
    alloc: Global,
    element: ObjectId,
    end: End,
    old: ObjectId,
    new: ObjectId,
) -> Result<Env, AllocError>
    ensures { IfOk result (λ env. env ≡ reconnected element end old new) }
{
    let mut env = alone(alloc, "element", element)?;
    bind_text(alloc, &mut env, "end", end_name(end))?;
    bind_object(alloc, &mut env, "oldEnd", old)?;
    bind_object(alloc, &mut env, "newEnd", new)?;
    Ok(env)
}

/// The variables where an element is dropped on another, or on the diagram.
pub fn dropped_to(
    alloc: Global,
    element: ObjectId,
    old: ObjectId,
    new: ObjectId,
) -> Result<Env, AllocError>
    ensures { IfOk result (λ env. env ≡ dropped_to element old new) }
{
    let mut env = alone(alloc, "element", element)?;
    bind_object(alloc, &mut env, "oldContainer", old)?;
    bind_object(alloc, &mut env, "newContainer", new)?;
    Ok(env)
}

fn end_name(end: End) -> &'static str
    ensures { result.now ≡ end_name end }
{
    match end {
        End::Source => "source",
        End::Target => "target",
    }
}

// One variable, whose value is an object.
fn alone(alloc: Global, name: &str, o: ObjectId) -> Result<Env, AllocError>
    ensures { IfOk result (λ env. env ≡ variables ((name.now, object o) ∷ [])) }
{
    let mut env = Env {
        names: List::new(alloc),
        values: List::new(alloc),
    };
    bind_object(alloc, &mut env, name, o)?;
    Ok(env)
}

fn bind_object(alloc: Global, env: &mut Env, name: &str, o: ObjectId) -> Result<(), AllocError>
    ensures { OnOk result (env.new ≡ also env.old name.now (object o)) }
{
    bind(alloc, env, name, Value::One(Scalar::Object(o)))
}

fn bind_text(alloc: Global, env: &mut Env, name: &str, text: &str) -> Result<(), AllocError>
    ensures { OnOk result (env.new ≡ also env.old name.now (words text.now)) }
{
    let text = Text::from_str(alloc, text)?;
    bind(alloc, env, name, Value::One(Scalar::Text(text)))
}

// One variable more, last.
fn bind(alloc: Global, env: &mut Env, name: &str, value: Value) -> Result<(), AllocError>
    ensures { OnOk result (env.new ≡ also env.old name.now value) }
{
    env.names.push(Text::from_str(alloc, name)?)?;
    env.values.push(value)?;
    Ok(())
}
