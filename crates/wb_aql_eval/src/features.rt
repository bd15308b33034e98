ghost use Rattle.std.specs.Prelude.{◌≡◌, ⊤, IfOk};
ghost use Rattle.wb_aql_values.specs.declared.values.Value.TheVariants.{Null};
ghost use Rattle.wb_aql_values.specs.Bounds.{IsBounded};
ghost use Rattle.wb_aql_values.specs.Readings.{contents, done};
ghost use Rattle.wb_aql_values.specs.Runs.{Gives, run};
ghost use Rattle.wb_aql_eval.specs.Features.{feature_of, feature_of_object, navigated, shown};

use std::alloc::{AllocError, Global};
use wb_aql_values::{Fault, Halt, OnScalars, Reads, Value, lift, look_at_class};
use wb_base::{Duplicate, List, Text};
use wb_metamodel::ObjectId;
use wb_model::{Cell, Model, Scalar};

/// A feature that is asked for by its name.
#[derive(Drop)]
struct FeatureNamed<'a> {
    name: &'a Text,
}

impl OnScalars for FeatureNamed<'_> {
    ghost on_scalar = { λ feature mm x. navigated mm feature.name.now x };

    ghost on_null = { λ feature mm. done Null };

    ghost Needs = { λ feature mm. ⊤ };

    fn of_scalar(
        &self,
        alloc: Global,
        x: &Scalar,
        model: &Model,
        reads: &mut Reads,
    ) -> Result<Value, Halt> {
        match x {
            Scalar::Object(o) => feature_of_object(alloc, self.name, *o, model, reads),
            Scalar::Int(_) => Err(Halt::Fault(Fault::NotAnObject)),
            Scalar::Bool(_) => Err(Halt::Fault(Fault::NotAnObject)),
            Scalar::Text(_) => Err(Halt::Fault(Fault::NotAnObject)),
            Scalar::Literal(_, _) => Err(Halt::Fault(Fault::NotAnObject)),
        }
    }

    fn of_null(&self, _alloc: Global, _model: &Model, _reads: &mut Reads) -> Result<Value, Halt> {
        Ok(Value::Null)
    }
}

/// A feature of a value: of each member of a collection, into a collection of the same sort.
pub fn feature_of(
    alloc: Global,
    receiver: &Value,
    name: &Text,
    model: &Model,
    reads: &mut Reads,
) -> Result<Value, Halt>
    requires { IsBounded model.now.metamodel receiver.now }
    ensures value { Gives (run (feature_of model.now.metamodel name.now receiver.now) (contents model.now) reads.old) result reads.new }
    ensures bounded { IfOk result (IsBounded model.now.metamodel) }
{
    model.valid();
    lift(alloc, &FeatureNamed { name }, receiver, model, reads)
}

/// The class of the object is read before its slot.
fn feature_of_object(
    alloc: Global,
    name: &Text,
    o: ObjectId,
    model: &Model,
    reads: &mut Reads,
) -> Result<Value, Halt>
    ensures { Gives (run (feature_of_object model.now.metamodel name.now o) (contents model.now) reads.old) result reads.new }
{
    let class = look_at_class(model, o, reads)?;
    match model.metamodel().feature_named(class, name.as_slice()) {
        Some(feature) => {
            let many = model.metamodel().feature(feature).many;
            reads.note(Cell::Slot(o, feature))?;
            Ok(shown(alloc, many, model.get(o, feature))?)
        }
        None => Err(Halt::Fault(Fault::NoFeature)),
    }
}

/// What a slot shows: of a many-valued feature its values, and of a single one its value or null.
fn shown(alloc: Global, many: bool, values: &[Scalar]) -> Result<Value, AllocError>
    ensures { IfOk result (λ v. v ≡ shown many values.now) }
{
    if many {
        return Ok(Value::OrderedSet(copied(alloc, values)?));
    }
    match values {
        [first, ..] => Ok(Value::One(first.copy(alloc)?)),
        [] => Ok(Value::Null),
    }
}

fn copied(alloc: Global, values: &[Scalar]) -> Result<List<Scalar>, AllocError>
    ensures { IfOk result (λ copies. copies ≡ values.now) }
{
    let mut copies = Vec::new(alloc);
    for value in values {
        copies.push(value.copy(alloc)?)?;
    }
    Ok(List::from_vec(copies))
}
