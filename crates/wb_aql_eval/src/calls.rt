ghost use Rattle.std.specs.Prelude.{◌≡◌, ◌<◌, [], ◌∷◌, IfOk, IfSome, length};
ghost use Rattle.wb_metamodel.specs.Metamodel.{class_named};
ghost use Rattle.wb_aql_services.specs.Asked.{IsArgument};
ghost use Rattle.wb_aql_services.specs.declared.arguments.Argument.TheVariants as a;
ghost use Rattle.wb_aql_values.specs.Bounds.{IsBounded};
ghost use Rattle.wb_aql_values.specs.Readings.{contents};
ghost use Rattle.wb_aql_values.specs.Runs.{Gives, run};
ghost use Rattle.wb_aql_eval.specs.Meaning.{iteration_called, service_called, serviced, serviced_class};

use std::alloc::Global;
use std::slice::from_ref;
use wb_aql_check::{Callee, Iteration, Service, service_named};
use wb_aql_services::{Argument, run_service};
use wb_aql_syntax::CallKind;
use wb_aql_values::{Halt, Reads, Value};
use wb_base::Text;
use wb_metamodel::{ClassId, Metamodel};
use wb_model::Model;

/// The service without a lambda that is called so by this name.
pub fn service_called(kind: CallKind, name: &[u8]) -> Option<Service>
    ensures { result ≡ service_called kind name.now }
{
    match service_named(kind, name) {
        Some((Callee::Service(service), _)) => Some(service),
        Some((Callee::Iteration(_), _)) => None,
        None => None,
    }
}

/// The service with a lambda that is called so by this name.
pub fn iteration_called(kind: CallKind, name: &[u8]) -> Option<Iteration>
    ensures { result ≡ iteration_called kind name.now }
{
    match service_named(kind, name) {
        Some((Callee::Iteration(iteration), _)) => Some(iteration),
        Some((Callee::Service(_), _)) => None,
        None => None,
    }
}

/// A service without arguments.
pub fn call(
    alloc: Global,
    model: &Model,
    service: Option<Service>,
    receiver: &Value,
    reads: &mut Reads,
) -> Result<Value, Halt>
    requires { IsBounded model.now.metamodel receiver.now }
    ensures value { Gives (run (serviced model.now.metamodel service receiver.now []) (contents model.now) reads.old) result reads.new }
    ensures bounded { IfOk result (IsBounded model.now.metamodel) }
{
    match service {
        Some(service) => run_service(alloc, service, receiver, &[], model, reads),
        None => Ok(Value::Null),
    }
}

/// A service that is asked for a type; null where there is no such class.
pub fn call_with_class(
    alloc: Global,
    model: &Model,
    service: Option<Service>,
    receiver: &Value,
    class: &Text,
    reads: &mut Reads,
) -> Result<Value, Halt>
    requires { IsBounded model.now.metamodel receiver.now }
    ensures value { Gives (run (serviced_class model.now.metamodel service receiver.now (class_named model.now.metamodel class.now)) (contents model.now) reads.old) result reads.new }
    ensures bounded { IfOk result (IsBounded model.now.metamodel) }
{
    match known_class(model.metamodel(), class) {
        Some(class) => {
            let argument = Argument::Class(class);
            call_with(alloc, model, service, receiver, &argument, reads)
        }
        None => Ok(Value::Null),
    }
}

fn known_class(metamodel: &Metamodel, class: &Text) -> Option<ClassId>
    ensures value { result ≡ class_named metamodel.now class.now }
    ensures known { IfSome result (λ c. c < length metamodel.now.classes) }
{
    metamodel.class_named(class.as_slice())
}

/// A service with a value.
pub fn call_with_value(
    alloc: Global,
    model: &Model,
    service: Option<Service>,
    receiver: &Value,
    value: Value,
    reads: &mut Reads,
) -> Result<Value, Halt>
    requires receiver { IsBounded model.now.metamodel receiver.now }
    requires value { IsBounded model.now.metamodel value }
    ensures value { Gives (run (serviced model.now.metamodel service receiver.now (a.Of value ∷ [])) (contents model.now) reads.old) result reads.new }
    ensures bounded { IfOk result (IsBounded model.now.metamodel) }
{
    let argument = Argument::Of(value);
    call_with(alloc, model, service, receiver, &argument, reads)
}

fn call_with(
    alloc: Global,
    model: &Model,
    service: Option<Service>,
    receiver: &Value,
    argument: &Argument,
    reads: &mut Reads,
) -> Result<Value, Halt>
    requires receiver { IsBounded model.now.metamodel receiver.now }
    requires argument { IsArgument model.now.metamodel argument.now }
    ensures value { Gives (run (serviced model.now.metamodel service receiver.now (argument.now ∷ [])) (contents model.now) reads.old) result reads.new }
    ensures bounded { IfOk result (IsBounded model.now.metamodel) }
{
    match service {
        Some(service) => run_service(alloc, service, receiver, from_ref(argument), model, reads),
        None => Ok(Value::Null),
    }
}
