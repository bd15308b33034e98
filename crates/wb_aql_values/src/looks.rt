ghost use Rattle.std.specs.Prelude.{◌<◌, length, IfOk};
ghost use Rattle.wb_aql_values.specs.Readings.{class_of, contents};
ghost use Rattle.wb_aql_values.specs.Runs.{Gives, run};

use crate::faults::{Fault, Halt};
use crate::reads::Reads;
use wb_metamodel::{ClassId, ObjectId};
use wb_model::{Cell, Model};

/// The class of an object, which is read; a dead one is a fault.
pub fn look_at_class(model: &Model, o: ObjectId, reads: &mut Reads) -> Result<ClassId, Halt>
    ensures class { Gives (run (class_of o) (contents model.now) reads.old) result reads.new }
    ensures known { IfOk result (λ class. class < length model.now.metamodel.classes) }
{
    reads.note(Cell::Kind(o))?;
    match model.kind(o) {
        Some(class) => Ok(class),
        None => Err(Halt::Fault(Fault::DeadObject)),
    }
}
