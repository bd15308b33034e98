ghost use Rattle.std.specs.Prelude.{◌≡◌, IfOk, map};
ghost use Rattle.wb_store.specs.declared.scalars.Scalar.TheVariants.{Object};
ghost use Rattle.wb_aql_services.specs.Asked.{IsType};
ghost use Rattle.wb_aql_services.specs.Navigation.{sequence};
ghost use Rattle.wb_aql_values.specs.Readings.{contents};
ghost use Rattle.wb_aql_values.specs.Runs.{Gives, run};

use crate::types::narrowed;
use std::alloc::{AllocError, Global};
use wb_aql_values::{Fault, Halt, Reads, Value};
use wb_base::List;
use wb_metamodel::{ClassId, ObjectId};
use wb_model::{Model, Scalar};

/// How many members a collection has at most.
const MAX_MEMBERS: usize = 65536;

/// The sequence of objects, or of those that conform to a type.
pub fn sequence(
    alloc: Global,
    asked: &Option<ClassId>,
    os: &[ObjectId],
    model: &Model,
    reads: &mut Reads,
) -> Result<Value, Halt>
    requires { IsType model.now.metamodel asked.now }
    ensures { Gives (run (sequence model.now.metamodel asked.now os.now) (contents model.now) reads.old) result reads.new }
{
    if os.len() > MAX_MEMBERS {
        return Err(Halt::Fault(Fault::TooLong));
    }
    let xs = scalars(alloc, os)?;
    let ys = narrowed(alloc, asked, xs, model, reads)?;
    Ok(Value::Sequence(ys))
}

/// Objects as scalars.
pub fn scalars(alloc: Global, os: &[ObjectId]) -> Result<List<Scalar>, AllocError>
    ensures { IfOk result (λ xs. xs ≡ map Object os.now) }
{
    let mut xs = List::new(alloc);
    for o in os {
        xs.push(Scalar::Object(*o))?;
    }
    Ok(xs)
}
