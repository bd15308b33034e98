ghost use Rattle.std.specs.Prelude.{◌≡◌, IfOk};
ghost use Rattle.std.specs.List.{position};
ghost use Rattle.wb_base.specs.Names.{same_name};
ghost use Rattle.wb_aql_values.specs.Bounds.{IsBounded};
ghost use Rattle.wb_aql_eval.specs.Scopes.{values_of, values_in};

use crate::env::Env;
use std::alloc::{AllocError, Global};
use wb_aql_values::Value;
use wb_base::{Duplicate, Text};
use wb_model::Model;

/// The variables where a part of an expression stands.
#[derive(Clone, Copy)]
pub enum Scope<'a> {
    /// Those of the whole expression.
    Outer(&'a Env),
    /// Those around, and one more that is nearer.
    Inner(&'a Scope<'a>, &'a Text, &'a Value),
}

/// Where a part of an expression is evaluated: over a model, with the variables around it.
#[derive(Clone, Copy)]
pub struct Context<'a> {
    pub alloc: Global,
    pub model: &'a Model,
    pub scope: Scope<'a>,
}

/// The value of a variable.
pub fn value_of(alloc: Global, scope: &Scope<'_>, name: &Text) -> Result<Value, AllocError>
    ensures { IfOk result (λ v. v ≡ values_of scope.now name.now) }
{
    match scope {
        Scope::Outer(env) => value_in(alloc, env, name),
        Scope::Inner(outer, nearest, value) => {
            if *nearest == name {
                return value.copy(alloc);
            }
            value_of(alloc, outer, name)
        }
    }
}

/// The value of a variable of the whole expression.
fn value_in(alloc: Global, env: &Env, name: &Text) -> Result<Value, AllocError>
    ensures { IfOk result (λ v. v ≡ values_in env.now name.now) }
{
    match place_of(env.names.as_slice(), name) {
        Some(place) => match env.values.as_slice().get(place) {
            Some(value) => value.copy(alloc),
            None => Ok(Value::Null),
        },
        None => Ok(Value::Null),
    }
}

fn place_of(names: &[Text], name: &Text) -> Option<usize>
    ensures { result ≡ position (λ known. same_name known name.now) names.now }
{
    names.iter().position(|known| known == name)
}
