ghost use Rattle.std.specs.Prelude.{◌≡◌, [], ◌<◌};
ghost use Rattle.wb_aql_services.specs.Asked.{IsType};
ghost use Rattle.wb_aql_services.specs.Navigation.{ancestors, climbed, container, e_container, height, nearest};
ghost use Rattle.wb_aql_values.specs.Readings.{contents};
ghost use Rattle.wb_aql_values.specs.Runs.{Gives, run};

use crate::sequences::sequence;
use crate::types::look_whether_of;
use std::alloc::Global;
use wb_aql_values::{Halt, Reads, Value};
use wb_base::List;
use wb_metamodel::{ClassId, ObjectId};
use wb_model::{Cell, Model, Scalar};

/// No more objects than this stand above an object, since no more are live.
const HEIGHT: usize = 20000;

/// `eContainer`: the container, or the nearest one that conforms to a type; null where there is none.
pub fn e_container(
    asked: &Option<ClassId>,
    o: ObjectId,
    model: &Model,
    reads: &mut Reads,
) -> Result<Value, Halt>
    requires { IsType model.now.metamodel asked.now }
    ensures { Gives (run (e_container model.now.metamodel asked.now o) (contents model.now) reads.old) result reads.new }
{
    match asked {
        None => container(o, model, reads),
        Some(_) => nearest(asked, o, model, reads),
    }
}

fn container(o: ObjectId, model: &Model, reads: &mut Reads) -> Result<Value, Halt>
    ensures { Gives (run (container o) (contents model.now) reads.old) result reads.new }
{
    reads.note(Cell::Holder(o))?;
    match model.holder(o) {
        Some(place) => Ok(Value::One(Scalar::Object(place.0))),
        None => Ok(Value::Null),
    }
}

fn nearest(
    asked: &Option<ClassId>,
    o: ObjectId,
    model: &Model,
    reads: &mut Reads,
) -> Result<Value, Halt>
    requires { IsType model.now.metamodel asked.now }
    ensures { Gives (run (nearest model.now.metamodel asked.now height o) (contents model.now) reads.old) result reads.new }
{
    let mut below = o;
    for _level in 0..HEIGHT {
        reads.note(Cell::Holder(below))?;
        let Some(place) = model.holder(below) else {
            return Ok(Value::Null);
        };
        if look_whether_of(model, asked, place.0, reads)? {
            return Ok(Value::One(Scalar::Object(place.0)));
        }
        below = place.0;
    }
    Ok(Value::Null)
}

/// `ancestors`: the containers above the object, nearest first; of these the ones that conform to a type.
pub fn ancestors(
    alloc: Global,
    asked: &Option<ClassId>,
    o: ObjectId,
    model: &Model,
    reads: &mut Reads,
) -> Result<Value, Halt>
    requires { IsType model.now.metamodel asked.now }
    ensures { Gives (run (ancestors model.now.metamodel asked.now o) (contents model.now) reads.old) result reads.new }
{
    let met = climbed(alloc, o, model, reads)?;
    sequence(alloc, asked, met.as_slice(), model, reads)
}

fn climbed(
    alloc: Global,
    o: ObjectId,
    model: &Model,
    reads: &mut Reads,
) -> Result<List<ObjectId>, Halt>
    ensures { Gives (run (climbed height [] o) (contents model.now) reads.old) result reads.new }
{
    let mut met = List::new(alloc);
    let mut below = o;
    for _level in 0..HEIGHT {
        reads.note(Cell::Holder(below))?;
        let Some(place) = model.holder(below) else {
            return Ok(met);
        };
        met.push(place.0)?;
        below = place.0;
    }
    Ok(met)
}
