ghost use Rattle.std.specs.Prelude.{◌≡◌, ◌<◌, ◌&&◌, ◌||◌, ℕ, length, nat_eq, true, IfOk, OnOk};
ghost use Rattle.std.specs.List.{list_all, list_any};
ghost use Rattle.wb_store.specs.Contents.{has_object};
ghost use Rattle.wb_store.specs.Records.{is_known_slot};
ghost use Rattle.wb_store.specs.Scalars.{same};
ghost use Rattle.wb_validity.specs.invariants.LinkSets.{has_opposite, has_link, slot_has, KnowsLinks};

use indexmap::IndexSet;
use std::alloc::{AllocError, Global};
use std::marker::Model;
use wb_metamodel::{FeatureId, Metamodel, ObjectId};
use wb_store::{Scalar, Slot, Store};

/// An object, a feature that has an opposite, and an object that stands in that slot.
type Link = (ObjectId, FeatureId, ObjectId);

/// All links of a store by features that have opposites, kept so that it is soon seen whether one is among them.
#[derive(Drop)]
pub struct LinkSet {
    links: IndexSet<Link>,
}

impl Model for LinkSet {
    ghost use Rattle.std.specs.Prelude.{List, ℕ as Number};

    ghost Value = { List (Number × Number × Number) };

    ghost view = { λ s. s.links.keys };
}

impl LinkSet {
    pub fn new(alloc: Global, store: &Store) -> Result<LinkSet, AllocError>
        ensures { IfOk result (λ links. KnowsLinks store.now links) }
    {
        let mut links = IndexSet::new(alloc);
        for record in store.records() {
            let slots = record.slots.as_slice();
            insert_slots(&mut links, store.metamodel(), record.id, slots)?;
        }
        Ok(LinkSet { links })
    }

    pub fn contains(&self, p: ObjectId, g: FeatureId, o: ObjectId) -> bool
        ensures { result ≡ has_link self.now p g o }
    {
        self.links.contains(&(p, g, o))
    }
}

fn insert_slots(
    links: &mut IndexSet<Link>,
    metamodel: &Metamodel,
    p: ObjectId,
    slots: &[Slot],
) -> Result<(), AllocError>
    requires { list_all (is_known_slot metamodel.now) slots.now ≡ true }
    ensures { OnOk result ((q g o : ℕ) → has_link links.new.keys q g o ≡ (has_link links.old.keys q g o || (nat_eq q p && list_any (slot_has metamodel.now g o) slots.now))) }
{
    for slot in slots {
        insert_slot(links, metamodel, p, slot)?;
    }
    Ok(())
}

fn insert_slot(
    links: &mut IndexSet<Link>,
    metamodel: &Metamodel,
    p: ObjectId,
    slot: &Slot,
) -> Result<(), AllocError>
    requires { is_known_slot metamodel.now slot.now ≡ true }
    ensures { OnOk result ((q g o : ℕ) → has_link links.new.keys q g o ≡ (has_link links.old.keys q g o || (nat_eq q p && slot_has metamodel.now g o slot.now))) }
{
    if has_opposite(metamodel, slot.feature) {
        insert_values(links, p, slot.feature, slot.values.as_slice())
    } else {
        Ok(())
    }
}

fn has_opposite(metamodel: &Metamodel, f: FeatureId) -> bool
    requires { f < length metamodel.now.features }
    ensures { result ≡ has_opposite metamodel.now f }
{
    metamodel.feature(f).opposite.is_some()
}

fn insert_values(
    links: &mut IndexSet<Link>,
    p: ObjectId,
    f: FeatureId,
    values: &[Scalar],
) -> Result<(), AllocError>
    ensures { OnOk result ((q g o : ℕ) → has_link links.new.keys q g o ≡ (has_link links.old.keys q g o || (nat_eq q p && (nat_eq g f && has_object values.now o)))) }
{
    for value in values {
        insert_value(links, p, f, value)?;
    }
    Ok(())
}

fn insert_value(
    links: &mut IndexSet<Link>,
    p: ObjectId,
    f: FeatureId,
    value: &Scalar,
) -> Result<(), AllocError>
    ensures { OnOk result ((q g o : ℕ) → has_link links.new.keys q g o ≡ (has_link links.old.keys q g o || (nat_eq q p && (nat_eq g f && same value.now (Scalar.Object o))))) }
{
    if let Scalar::Object(o) = value {
        links.insert((p, f, *o))?;
    }
    Ok(())
}
