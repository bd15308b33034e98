ghost use Rattle.std.specs.Prelude.{◌≡◌, ◌<◌, ℕ, true, length, find};
ghost use Rattle.std.specs.Option.{option_copied, option_map};
ghost use Rattle.std.specs.List.{list_all, flat_map};
ghost use Rattle.wb_store.specs.Places.{rises, numbered, IsPlaceOf};
ghost use Rattle.wb_store.specs.Records.{id_of, feature_of, values_in, is_known, is_known_slot, slot_entry, slot_entries};
ghost use Rattle.wb_store.specs.Contents.{is_containment, has_object};
ghost use Rattle.wb_store.specs.Cells.{holds};

use crate::scalars::Scalar;
use wb_base::List;
use wb_metamodel::{ClassId, FeatureId, Metamodel, ObjectId};

/// An object with its slots, ascending by feature.
#[derive(Drop)]
pub struct Record {
    pub id: ObjectId,
    pub class: ClassId,
    pub slots: List<Slot>,
}

/// The values of a feature.
#[derive(Drop)]
pub struct Slot {
    pub feature: FeatureId,
    pub values: List<Scalar>,
}

/// The place of an object among objects that ascend by number.
pub fn place_of_object(records: &[Record], o: ObjectId) -> Option<usize>
    requires { rises id_of records.now ≡ true }
    ensures { IsPlaceOf id_of records.now o result }
{
    records
        .binary_search_by_key(&o.0, |record| record.id.0)
        .ok()
}

/// The place of a feature's slot among slots that ascend by feature.
pub fn place_of_feature(slots: &[Slot], f: FeatureId) -> Option<usize>
    requires { rises feature_of slots.now ≡ true }
    ensures { IsPlaceOf feature_of slots.now f result }
{
    slots.binary_search_by_key(&f.0, |slot| slot.feature.0).ok()
}

/// The object of a number.
pub fn find_object(records: &[Record], o: ObjectId) -> Option<&Record>
    requires { rises id_of records.now ≡ true }
    ensures { option_copied result ≡ numbered id_of o records.now }
{
    match place_of_object(records, o) {
        Some(place) => Some(&records[place]),
        None => None,
    }
}

/// The slot of a feature.
pub fn find_slot(slots: &[Slot], f: FeatureId) -> Option<&Slot>
    requires { rises feature_of slots.now ≡ true }
    ensures { option_copied result ≡ numbered feature_of f slots.now }
{
    match place_of_feature(slots, f) {
        Some(place) => Some(&slots[place]),
        None => None,
    }
}

/// The values of a feature.
pub fn values_of(slots: &[Slot], f: FeatureId) -> &[Scalar]
    requires { rises feature_of slots.now ≡ true }
    ensures { result.now ≡ values_in f slots.now }
{
    match find_slot(slots, f) {
        Some(slot) => slot.values.as_slice(),
        None => &[],
    }
}

/// Are the values of a feature contained in the object?
pub fn is_containment(metamodel: &Metamodel, f: FeatureId) -> bool
    requires { f < length metamodel.now.features }
    ensures { result ≡ is_containment metamodel.now f }
{
    metamodel.feature(f).containment
}

/// Do the values have this object?
pub fn has_object(values: &[Scalar], o: ObjectId) -> bool
    ensures { result ≡ has_object values.now o }
{
    values.contains(&Scalar::Object(o))
}

/// The first containment feature whose slot has the object.
pub fn holding_feature(metamodel: &Metamodel, slots: &[Slot], o: ObjectId) -> Option<FeatureId>
    requires { list_all (is_known_slot metamodel.now) slots.now ≡ true }
    ensures { (p : ℕ) → option_map (λ f. (p, f)) result ≡ option_map (λ e. e.0) (find (holds metamodel.now o) (flat_map (slot_entry p) slots.now)) }
{
    for slot in slots {
        if is_containment(metamodel, slot.feature) && has_object(slot.values.as_slice(), o) {
            return Some(slot.feature);
        }
    }
    None
}

/// The first object that contains the object, with the feature that holds it.
pub fn holding_object(
    metamodel: &Metamodel,
    records: &[Record],
    o: ObjectId,
) -> Option<(ObjectId, FeatureId)>
    requires { list_all (is_known metamodel.now) records.now ≡ true }
    ensures { result ≡ option_map (λ e. e.0) (find (holds metamodel.now o) (flat_map slot_entries records.now)) }
{
    for record in records {
        if let Some(f) = holding_feature(metamodel, record.slots.as_slice(), o) {
            return Some((record.id, f));
        }
    }
    None
}
