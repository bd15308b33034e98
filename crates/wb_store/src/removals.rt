ghost use Rattle.std.specs.Prelude.{◌≡◌, not, map, filter};
ghost use Rattle.wb_store.specs.Relinking.{is_among, is_value_among};
ghost use Rattle.wb_store.specs.invariants.Removals.{values_left, slot_left, record_left, stays};

use crate::object_sets::ObjectSet;
use crate::records::{Record, Slot};
use crate::scalars::Scalar;
use std::alloc::Global;
use std::mem;
use wb_base::List;
use wb_metamodel::ObjectId;

/// Deletes objects.
pub fn drop_records(records: &mut Vec<Record>, dead: &ObjectSet)
    ensures { records.new.items ≡ filter (stays dead.now) records.old.items }
{
    records.retain(|record| !dead.contains(record.id));
}

/// Takes objects out of all slots.
pub fn drop_from_records(alloc: Global, records: &mut Vec<Record>, dead: &ObjectSet)
    ensures { records.new.items ≡ map (record_left dead.now) records.old.items }
{
    for i in 0..records.len() {
        drop_from_slots(alloc, &mut records[i].slots, dead);
    }
}

fn drop_from_slots(alloc: Global, slots: &mut List<Slot>, dead: &ObjectSet)
    ensures { slots.new ≡ map (slot_left dead.now) slots.old }
{
    let mut open = mem::replace(slots, List::new(alloc)).into_vec();
    drop_from_each(alloc, &mut open, dead);
    *slots = List::from_vec(open);
}

fn drop_from_each(alloc: Global, slots: &mut Vec<Slot>, dead: &ObjectSet)
    ensures { slots.new.items ≡ map (slot_left dead.now) slots.old.items }
{
    for i in 0..slots.len() {
        drop_from_values(alloc, &mut slots[i].values, dead);
    }
}

fn drop_from_values(alloc: Global, values: &mut List<Scalar>, dead: &ObjectSet)
    ensures { values.new ≡ values_left dead.now values.old }
{
    let mut kept = mem::replace(values, List::new(alloc)).into_vec();
    kept.retain(|value| !is_value_among(dead, value));
    *values = List::from_vec(kept);
}

/// Takes objects out of a list of objects.
pub fn drop_objects(alloc: Global, objects: &mut List<ObjectId>, dead: &ObjectSet)
    ensures { objects.new ≡ filter (λ o. not (is_among dead.now o)) objects.old }
{
    let mut kept = mem::replace(objects, List::new(alloc)).into_vec();
    kept.retain(|o| !dead.contains(*o));
    *objects = List::from_vec(kept);
}

fn is_value_among(dead: &ObjectSet, value: &Scalar) -> bool
    ensures { result ≡ is_value_among dead.now value.now }
{
    match value {
        Scalar::Object(o) => dead.contains(*o),
        _ => false,
    }
}
