ghost use Rattle.std.specs.Prelude.{◌≡◌, true, map, IfOk};
ghost use Rattle.std.specs.List.{list_all, AllZip};
ghost use Rattle.wb_store.specs.invariants.Arranged.{AreArranged, IsArranged, AreSorted};
ghost use Rattle.wb_store.specs.Parts.{slot_of, record_of};
ghost use Rattle.wb_store.specs.Records.{feature_of};
ghost use Rattle.wb_store.specs.Places.{once};

use crate::parts::{Part, SlotPart};
use crate::records::{Record, Slot};
use std::alloc::{AllocError, Global};
use wb_base::List;

/// The objects of parts, ascending by number, each with its slots ascending by feature.
pub fn sorted_records(alloc: Global, parts: List<Part>) -> Result<Vec<Record>, AllocError>
    requires { list_all (λ r. once (map feature_of r.slots)) (map record_of parts) ≡ true }
    ensures { IfOk result (λ records. AreSorted (map record_of parts) records.items) }
{
    let mut records = arranged_records(alloc, parts)?;
    records.sort_by_key(|record| record.id.0)?;
    Ok(records)
}

// The objects of parts, in their order, each with its slots ascending by feature.
fn arranged_records(alloc: Global, parts: List<Part>) -> Result<Vec<Record>, AllocError>
    requires { list_all (λ r. once (map feature_of r.slots)) (map record_of parts) ≡ true }
    ensures { IfOk result (λ records. AllZip IsArranged (map record_of parts) records.items) }
{
    let mut records = Vec::new(alloc);
    for part in parts.into_vec() {
        let slots = arranged_slots(alloc, part.slots)?;
        records.push(Record {
            id: part.id,
            class: part.class,
            slots,
        })?;
    }
    Ok(records)
}

// The slots of a part, ascending by feature.
fn arranged_slots(alloc: Global, parts: List<SlotPart>) -> Result<List<Slot>, AllocError>
    requires { once (map feature_of (map slot_of parts)) ≡ true }
    ensures { IfOk result (AreArranged (map slot_of parts)) }
{
    let mut slots = slots_in_order(alloc, parts)?;
    slots.sort_by_key(|slot| slot.feature.0)?;
    Ok(List::from_vec(slots))
}

fn slots_in_order(alloc: Global, parts: List<SlotPart>) -> Result<Vec<Slot>, AllocError>
    ensures { IfOk result (λ slots. slots.items ≡ map slot_of parts) }
{
    let mut slots = Vec::new(alloc);
    for part in parts.into_vec() {
        slots.push(Slot {
            feature: part.feature,
            values: part.values,
        })?;
    }
    Ok(slots)
}
