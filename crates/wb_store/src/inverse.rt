ghost use Rattle.std.specs.Prelude.{◌≡◌, ◌++◌, ◌&&◌, ◌<◌, filter, map, length, true, IfOk, OnOk};
ghost use Rattle.std.specs.List.{flat_map, list_all};
ghost use Rattle.wb_store.specs.Cells.{inverse, is_container_reference, is_plain, refers};
ghost use Rattle.wb_store.specs.Contents.{has_object};
ghost use Rattle.wb_store.specs.Records.{is_known_slot, slot_entry};

use crate::records::{Slot, has_object, is_containment};
use crate::store::Store;
use std::alloc::{AllocError, Global};
use wb_base::List;
use wb_metamodel::{FeatureId, Metamodel, ObjectId};

impl Store {
    /// The objects and plain references that hold an object, ascending.
    pub fn inverse(
        &self,
        alloc: Global,
        o: ObjectId,
    ) -> Result<List<(ObjectId, FeatureId)>, AllocError>
        ensures { IfOk result (λ pairs. pairs ≡ inverse self.now o) }
    {
        let mut pairs = Vec::new(alloc);
        for record in self.records() {
            let slots = record.slots.as_slice();
            push_referring(&mut pairs, self.metamodel(), record.id, slots, o)?;
        }
        Ok(List::from_vec(pairs))
    }
}

// The plain references of one object that hold another.
fn push_referring(
    pairs: &mut Vec<(ObjectId, FeatureId)>,
    metamodel: &Metamodel,
    p: ObjectId,
    slots: &[Slot],
    o: ObjectId,
) -> Result<(), AllocError>
    requires { list_all (is_known_slot metamodel.now) slots.now ≡ true }
    ensures { OnOk result (pairs.new.items ≡ pairs.old.items ++ map (λ e. e.0) (filter (refers metamodel.now o) (flat_map (slot_entry p) slots.now))) }
{
    for slot in slots {
        if refers(metamodel, slot, o) {
            pairs.push((p, slot.feature))?;
        }
    }
    Ok(())
}

// Is it the slot of a plain feature, and does it have the object?
fn refers(metamodel: &Metamodel, slot: &Slot, o: ObjectId) -> bool
    requires { is_known_slot metamodel.now slot.now ≡ true }
    ensures { result ≡ (is_plain metamodel.now slot.now.feature && has_object slot.now.values o) }
{
    if is_plain(metamodel, slot.feature) {
        has_object(slot.values.as_slice(), o)
    } else {
        false
    }
}

/// Is the feature neither a containment nor a container reference?
pub fn is_plain(metamodel: &Metamodel, f: FeatureId) -> bool
    requires { f < length metamodel.now.features }
    ensures { result ≡ is_plain metamodel.now f }
{
    if is_containment(metamodel, f) {
        false
    } else {
        !is_container_reference(metamodel, f)
    }
}

fn is_container_reference(metamodel: &Metamodel, f: FeatureId) -> bool
    requires { f < length metamodel.now.features }
    ensures { result ≡ is_container_reference metamodel.now f }
{
    metamodel.well_formed();
    match metamodel.feature(f).opposite {
        Some(g) => is_containment(metamodel, g),
        None => false,
    }
}
