ghost use Rattle.std.specs.Prelude.{◌≡◌, [], ◌∷◌, ◌++◌, true, not, filter, OnOk, OnErr, Some, IfOk};
ghost use Rattle.wb_store.specs.Places.{rises, IsPlaceOf};
ghost use Rattle.wb_store.specs.Records.{feature_of, values_in};
ghost use Rattle.wb_store.specs.Scalars.{same};
ghost use Rattle.wb_store.specs.invariants.Slots.{IsPlaceOrGap, SlotsChange};

use crate::records::{Slot, place_of_feature};
use crate::scalars::Scalar;
use std::alloc::{AllocError, Global};
use std::mem;
use wb_base::List;
use wb_metamodel::FeatureId;

// The place of a feature's slot, or else the one where it belongs.
fn place_or_gap(slots: &[Slot], f: FeatureId) -> Result<usize, usize>
    requires { rises feature_of slots.now ≡ true }
    ensures { IsPlaceOrGap feature_of slots.now f result }
{
    slots.binary_search_by_key(&f.0, |slot| slot.feature.0)
}

// The place of a feature's slot. Where there is none an empty one is made.
fn made_place(alloc: Global, slots: &mut Vec<Slot>, f: FeatureId) -> Result<usize, AllocError>
    requires { rises feature_of slots.old.items ≡ true }
    ensures same { SlotsChange f (values_in f slots.old.items) slots.old.items slots.new.items }
    ensures place { IfOk result (λ place. IsPlaceOf feature_of slots.new.items f (Some place)) }
{
    match place_or_gap(slots.as_slice(), f) {
        Ok(place) => Ok(place),
        Err(place) => {
            let empty = Slot {
                feature: f,
                values: List::new(alloc),
            };
            slots.insert(place, empty)?;
            Ok(place)
        }
    }
}

/// Puts a value last in the slot of a feature.
pub fn push_value(
    alloc: Global,
    slots: &mut Vec<Slot>,
    f: FeatureId,
    value: Scalar,
) -> Result<(), AllocError>
    requires { rises feature_of slots.old.items ≡ true }
    ensures ok { OnOk result (SlotsChange f (values_in f slots.old.items ++ value ∷ []) slots.old.items slots.new.items) }
    ensures err { OnErr result (SlotsChange f (values_in f slots.old.items) slots.old.items slots.new.items) }
{
    let place = made_place(alloc, slots, f)?;
    slots[place].values.push(value)?;
    Ok(())
}

/// Takes a value out of the slot of a feature.
pub fn drop_value(alloc: Global, slots: &mut Vec<Slot>, f: FeatureId, value: &Scalar)
    requires { rises feature_of slots.old.items ≡ true }
    ensures { SlotsChange f (filter (λ other. not (same other value.now)) (values_in f slots.old.items)) slots.old.items slots.new.items }
{
    if let Some(place) = place_of_feature(slots.as_slice(), f) {
        drop_same(alloc, &mut slots[place].values, value);
    }
}

fn drop_same(alloc: Global, values: &mut List<Scalar>, value: &Scalar)
    ensures { values.new ≡ filter (λ other. not (same other value.now)) values.old }
{
    let mut kept = mem::replace(values, List::new(alloc)).into_vec();
    kept.retain(|other| other != value);
    *values = List::from_vec(kept);
}

/// Takes all values out of the slot of a feature.
pub fn take_values(alloc: Global, slots: &mut Vec<Slot>, f: FeatureId) -> List<Scalar>
    requires { rises feature_of slots.old.items ≡ true }
    ensures taken { result ≡ values_in f slots.old.items }
    ensures left { SlotsChange f [] slots.old.items slots.new.items }
{
    match place_of_feature(slots.as_slice(), f) {
        Some(place) => mem::replace(&mut slots[place].values, List::new(alloc)),
        None => List::new(alloc),
    }
}

/// Makes these the values of a feature.
pub fn replace_values(
    alloc: Global,
    slots: &mut Vec<Slot>,
    f: FeatureId,
    values: List<Scalar>,
) -> Result<(), AllocError>
    requires { rises feature_of slots.old.items ≡ true }
    ensures ok { OnOk result (SlotsChange f values slots.old.items slots.new.items) }
    ensures err { OnErr result (SlotsChange f (values_in f slots.old.items) slots.old.items slots.new.items) }
{
    let place = made_place(alloc, slots, f)?;
    slots[place].values = values;
    Ok(())
}

/// The list of one value.
pub fn alone(alloc: Global, value: Scalar) -> Result<List<Scalar>, AllocError>
    ensures { IfOk result (λ values. values ≡ value ∷ []) }
{
    let mut values = List::new(alloc);
    values.push(value)?;
    Ok(values)
}
