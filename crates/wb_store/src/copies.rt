ghost use Rattle.std.specs.Prelude.{◌≡◌, IfOk};

use crate::records::{Record, Slot};
use crate::scalars::Scalar;
use std::alloc::{AllocError, Global};
use wb_base::{Duplicate, List};
use wb_metamodel::ObjectId;

impl Duplicate for Scalar {
    fn copy(&self, alloc: Global) -> Result<Scalar, AllocError> {
        match self {
            Scalar::Int(n) => Ok(Scalar::Int(*n)),
            Scalar::Bool(b) => Ok(Scalar::Bool(*b)),
            Scalar::Text(text) => Ok(Scalar::Text(text.copy(alloc)?)),
            Scalar::Literal(e, literal) => Ok(Scalar::Literal(*e, *literal)),
            Scalar::Object(o) => Ok(Scalar::Object(*o)),
        }
    }
}

impl Duplicate for Slot {
    fn copy(&self, alloc: Global) -> Result<Slot, AllocError> {
        Ok(Slot {
            feature: self.feature,
            values: self.values.copy(alloc)?,
        })
    }
}

impl Duplicate for Record {
    fn copy(&self, alloc: Global) -> Result<Record, AllocError> {
        Ok(Record {
            id: self.id,
            class: self.class,
            slots: self.slots.copy(alloc)?,
        })
    }
}

/// Equal objects, in the same order.
pub fn copy_records(alloc: Global, records: &[Record]) -> Result<Vec<Record>, AllocError>
    ensures { IfOk result (λ copies. copies.items ≡ records.now) }
{
    let mut copies = Vec::new(alloc);
    for record in records {
        copies.push(record.copy(alloc)?)?;
    }
    Ok(copies)
}

/// The same objects, in the same order.
pub fn copy_objects(alloc: Global, objects: &[ObjectId]) -> Result<List<ObjectId>, AllocError>
    ensures { IfOk result (λ copies. copies ≡ objects.now) }
{
    let mut copies = Vec::new(alloc);
    for object in objects {
        copies.push(*object)?;
    }
    Ok(List::from_vec(copies))
}
