ghost use Rattle.std.specs.Prelude.{◌≡◌, [], ◌∷◌, ◌++◌, true, not, filter, OnOk, OnErr, IsSome};
ghost use Rattle.std.specs.List.{list_all};
ghost use Rattle.wb_store.specs.Places.{rises, numbered};
ghost use Rattle.wb_store.specs.Records.{id_of, feature_of};
ghost use Rattle.wb_store.specs.Scalars.{same};
ghost use Rattle.wb_store.specs.invariants.Slots.{held_at, RecordsChange};

use crate::records::{Record, place_of_object};
use crate::scalars::Scalar;
use crate::slots::{drop_value, push_value, replace_values, take_values};
use std::alloc::{AllocError, Global};
use std::mem;
use wb_base::List;
use wb_metamodel::{FeatureId, ObjectId};

/// Puts a value last in a slot of an object.
pub fn push_to(
    alloc: Global,
    records: &mut Vec<Record>,
    o: ObjectId,
    f: FeatureId,
    value: Scalar,
) -> Result<(), AllocError>
    requires rise { rises id_of records.old.items ≡ true }
    requires slots_rise { list_all (λ r. rises feature_of r.slots) records.old.items ≡ true }
    requires live { IsSome (numbered id_of o records.old.items) }
    ensures ok { OnOk result (RecordsChange o f (held_at o f records.old.items ++ value ∷ []) records.old.items records.new.items) }
    ensures err { OnErr result (RecordsChange o f (held_at o f records.old.items) records.old.items records.new.items) }
{
    match place_of_object(records.as_slice(), o) {
        Some(place) => {
            let record = &mut records[place];
            let mut slots = mem::replace(&mut record.slots, List::new(alloc)).into_vec();
            let pushed = push_value(alloc, &mut slots, f, value);
            record.slots = List::from_vec(slots);
            pushed
        }
        None => unreachable!(),
    }
}

/// Makes these the values of a slot of an object.
pub fn replace_at(
    alloc: Global,
    records: &mut Vec<Record>,
    o: ObjectId,
    f: FeatureId,
    values: List<Scalar>,
) -> Result<(), AllocError>
    requires rise { rises id_of records.old.items ≡ true }
    requires slots_rise { list_all (λ r. rises feature_of r.slots) records.old.items ≡ true }
    requires live { IsSome (numbered id_of o records.old.items) }
    ensures ok { OnOk result (RecordsChange o f values records.old.items records.new.items) }
    ensures err { OnErr result (RecordsChange o f (held_at o f records.old.items) records.old.items records.new.items) }
{
    match place_of_object(records.as_slice(), o) {
        Some(place) => {
            let record = &mut records[place];
            let mut slots = mem::replace(&mut record.slots, List::new(alloc)).into_vec();
            let replaced = replace_values(alloc, &mut slots, f, values);
            record.slots = List::from_vec(slots);
            replaced
        }
        None => unreachable!(),
    }
}

/// Takes a value out of a slot of an object.
pub fn drop_from(
    alloc: Global,
    records: &mut Vec<Record>,
    o: ObjectId,
    f: FeatureId,
    value: &Scalar,
)
    requires rise { rises id_of records.old.items ≡ true }
    requires slots_rise { list_all (λ r. rises feature_of r.slots) records.old.items ≡ true }
    ensures { RecordsChange o f (filter (λ other. not (same other value.now)) (held_at o f records.old.items)) records.old.items records.new.items }
{
    if let Some(place) = place_of_object(records.as_slice(), o) {
        let record = &mut records[place];
        let mut slots = mem::replace(&mut record.slots, List::new(alloc)).into_vec();
        drop_value(alloc, &mut slots, f, value);
        record.slots = List::from_vec(slots);
    }
}

/// Takes all values out of a slot of an object.
pub fn take_from(
    alloc: Global,
    records: &mut Vec<Record>,
    o: ObjectId,
    f: FeatureId,
) -> List<Scalar>
    requires rise { rises id_of records.old.items ≡ true }
    requires slots_rise { list_all (λ r. rises feature_of r.slots) records.old.items ≡ true }
    ensures taken { result ≡ held_at o f records.old.items }
    ensures left { RecordsChange o f [] records.old.items records.new.items }
{
    match place_of_object(records.as_slice(), o) {
        Some(place) => {
            let record = &mut records[place];
            let mut slots = mem::replace(&mut record.slots, List::new(alloc)).into_vec();
            let values = take_values(alloc, &mut slots, f);
            record.slots = List::from_vec(slots);
            values
        }
        None => List::new(alloc),
    }
}
