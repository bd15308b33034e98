ghost use Rattle.std.specs.Prelude.{◌≡◌, All, IfOk, OnErr};
ghost use Rattle.wb_aql_services.specs.Asked.{IsArgument, IsType};
ghost use Rattle.wb_aql_services.specs.Services.{meaning, on_receiver};
ghost use Rattle.wb_aql_values.specs.Bounds.{IsBounded};
ghost use Rattle.wb_aql_values.specs.Readings.{contents};
ghost use Rattle.wb_aql_values.specs.Runs.{Gives, answered, run};

use crate::arguments::{Argument, type_in, value_in};
use crate::by_dot::{AsType, Joining, Navigation, OfKind, OfType, Starting, navigate};
use crate::collections::{
    as_sort, at, excludes, excluding, filtered, first, includes, including, is_empty, last,
    not_empty, size,
};
use std::alloc::{AllocError, Global};
use wb_aql_check::Service;
use wb_aql_values::{Answer, Halt, Reads, Sort, Value, lift};
use wb_base::Duplicate;
use wb_metamodel::ClassId;
use wb_model::Model;

/// What a service gives, and the cells that it reads. An argument that the service does not take is not looked at.
/// Its cells are noted apart, so that a service that finds no memory leaves no reads.
pub fn serve(
    alloc: Global,
    service: Service,
    receiver: &Value,
    arguments: &[Argument],
    model: &Model,
    reads: &mut Reads,
) -> Result<Answer, AllocError>
    requires receiver { IsBounded model.now.metamodel receiver.now }
    requires arguments { All (IsArgument model.now.metamodel) arguments.now }
    ensures gives { IfOk result (λ answer. run (meaning model.now.metamodel service receiver.now arguments.now) (contents model.now) reads.old ≡ record { gave = answered answer; reads = reads.new }) }
    ensures bounded { IfOk result (λ answer. IfOk (answered answer) (IsBounded model.now.metamodel)) }
    ensures refused { OnErr result (reads.new ≡ reads.old) }
{
    let mut noted = reads.copy(alloc)?;
    match run_service(alloc, service, receiver, arguments, model, &mut noted) {
        Ok(value) => {
            *reads = noted;
            Ok(Answer::Value(value))
        }
        Err(Halt::Fault(fault)) => {
            *reads = noted;
            Ok(Answer::Fault(fault))
        }
        Err(Halt::NoMemory) => Err(AllocError),
    }
}

/// The same for an evaluation, which stops at a fault.
pub fn run_service(
    alloc: Global,
    service: Service,
    receiver: &Value,
    arguments: &[Argument],
    model: &Model,
    reads: &mut Reads,
) -> Result<Value, Halt>
    requires receiver { IsBounded model.now.metamodel receiver.now }
    requires arguments { All (IsArgument model.now.metamodel) arguments.now }
    ensures gives { Gives (run (meaning model.now.metamodel service receiver.now arguments.now) (contents model.now) reads.old) result reads.new }
    ensures bounded { IfOk result (IsBounded model.now.metamodel) }
{
    let asked = type_in(arguments);
    let null = Value::Null;
    let value = value_in(arguments, &null);
    on_receiver(alloc, service, &asked, value, receiver, model, reads)
}

fn on_receiver(
    alloc: Global,
    service: Service,
    asked: &Option<ClassId>,
    value: &Value,
    receiver: &Value,
    model: &Model,
    reads: &mut Reads,
) -> Result<Value, Halt>
    requires asked { IsType model.now.metamodel asked.now }
    requires value { IsBounded model.now.metamodel value.now }
    requires receiver { IsBounded model.now.metamodel receiver.now }
    ensures { Gives (run (on_receiver model.now.metamodel service asked.now value.now receiver.now) (contents model.now) reads.old) result reads.new }
{
    match service {
        Service::EContainer => navigate(
            alloc,
            Navigation::EContainer,
            asked,
            receiver,
            model,
            reads,
        ),
        Service::EContents => navigate(alloc, Navigation::EContents, asked, receiver, model, reads),
        Service::EAllContents => navigate(
            alloc,
            Navigation::EAllContents,
            asked,
            receiver,
            model,
            reads,
        ),
        Service::EInverse => navigate(alloc, Navigation::EInverse, asked, receiver, model, reads),
        Service::Ancestors => navigate(alloc, Navigation::Ancestors, asked, receiver, model, reads),
        Service::Siblings => navigate(alloc, Navigation::Siblings, asked, receiver, model, reads),
        Service::PrecedingSiblings => navigate(
            alloc,
            Navigation::PrecedingSiblings,
            asked,
            receiver,
            model,
            reads,
        ),
        Service::FollowingSiblings => navigate(
            alloc,
            Navigation::FollowingSiblings,
            asked,
            receiver,
            model,
            reads,
        ),
        Service::OclIsKindOf => lift(alloc, &OfKind { asked }, receiver, model, reads),
        Service::OclIsTypeOf => lift(alloc, &OfType { asked }, receiver, model, reads),
        Service::OclAsType => lift(alloc, &AsType { asked }, receiver, model, reads),
        Service::Concat => lift(alloc, &Joining { value }, receiver, model, reads),
        Service::StartsWith => lift(alloc, &Starting { value }, receiver, model, reads),
        Service::Filter => filtered(alloc, asked, receiver, model, reads),
        Service::First => Ok(first(alloc, receiver)?),
        Service::Last => Ok(last(alloc, receiver)?),
        Service::At => at(alloc, value, receiver, model, reads),
        Service::Size => Ok(size(receiver)),
        Service::IsEmpty => Ok(is_empty(receiver)),
        Service::NotEmpty => Ok(not_empty(receiver)),
        Service::Includes => Ok(includes(value, receiver)),
        Service::Excludes => Ok(excludes(value, receiver)),
        Service::Including => including(alloc, value, receiver, model, reads),
        Service::Excluding => Ok(excluding(alloc, value, receiver)?),
        Service::AsSequence => as_sort(alloc, Sort::Sequence, receiver, model, reads),
        Service::AsOrderedSet => as_sort(alloc, Sort::OrderedSet, receiver, model, reads),
    }
}
