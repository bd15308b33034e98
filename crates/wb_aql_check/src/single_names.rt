ghost use Rattle.std.specs.Prelude.{◌≡◌};
ghost use Rattle.wb_aql_grammar.specs.View.{arguments_in};
ghost use Rattle.wb_aql_check.specs.invariants.Walks.{Tells};
ghost use Rattle.wb_aql_check.specs.Names.{is_in, is_feature, is_class, is_literal, unless, wrong_service};
ghost use Rattle.wb_aql_check.specs.Scopes.{names_of};
ghost use Rattle.wb_aql_check.specs.Services.{service_named};
ghost use Rattle.wb_aql_check.specs.declared.refusal.CheckRefusal.TheVariants.{UnknownVariable, UnknownFeature, UnknownType};

use crate::arguments::fits;
use crate::known::{is_class, is_feature, is_literal};
use crate::refusal::CheckRefusal;
use crate::scope::{Scope, is_in_scope};
use crate::services::service_named;
use sqlite_items::{Boxed, Items};
use std::alloc::Global;
use wb_aql_syntax::{Argument, CallKind, Node};
use wb_base::{Duplicate, Text};
use wb_metamodel::Metamodel;

pub fn check_variable(alloc: Global, scope: &Scope<'_>, name: &Text) -> Result<(), CheckRefusal>
    ensures { Tells result (unless (is_in (names_of scope.now) name.now) (UnknownVariable name.now)) }
{
    if is_in_scope(scope, name) {
        return Ok(());
    }
    Err(CheckRefusal::UnknownVariable(name.copy(alloc)?))
}

pub fn check_literal(
    alloc: Global,
    metamodel: &Metamodel,
    owner: &Text,
    enumeration: &Text,
    literal: &Text,
) -> Result<(), CheckRefusal>
    ensures { Tells result (unless (is_literal metamodel.now owner.now enumeration.now literal.now) (UnknownType enumeration.now)) }
{
    if is_literal(metamodel, owner, enumeration, literal) {
        return Ok(());
    }
    Err(CheckRefusal::UnknownType(enumeration.copy(alloc)?))
}

pub fn check_class(
    alloc: Global,
    metamodel: &Metamodel,
    owner: &Text,
    class: &Text,
) -> Result<(), CheckRefusal>
    ensures { Tells result (unless (is_class metamodel.now owner.now class.now) (UnknownType class.now)) }
{
    if is_class(metamodel, owner, class) {
        return Ok(());
    }
    Err(CheckRefusal::UnknownType(class.copy(alloc)?))
}

pub fn check_feature(alloc: Global, metamodel: &Metamodel, name: &Text) -> Result<(), CheckRefusal>
    ensures { Tells result (unless (is_feature metamodel.now name.now) (UnknownFeature name.now)) }
{
    if is_feature(metamodel, name) {
        return Ok(());
    }
    Err(CheckRefusal::UnknownFeature(name.copy(alloc)?))
}

pub fn check_service(
    alloc: Global,
    kind: CallKind,
    name: &Text,
    arguments: &Items<Argument<Boxed<Node>>>,
) -> Result<(), CheckRefusal>
    ensures { Tells result (wrong_service name.now (arguments_in arguments.now) (service_named kind name.now)) }
{
    match service_named(kind, name.as_slice()) {
        None => Err(CheckRefusal::UnknownService(name.copy(alloc)?)),
        Some((_callee, parameters)) => {
            if fits(parameters, arguments.as_slice()) {
                return Ok(());
            }
            Err(CheckRefusal::WrongArity(name.copy(alloc)?))
        }
    }
}
