ghost use Rattle.std.specs.Prelude.{◌≡◌, ◌++◌, true, IfOk, OnOk};
ghost use Rattle.std.specs.List.{list_all, flat_map};
ghost use Rattle.wb_store.specs.invariants.Links.{link, slot_links, links_of};
ghost use Rattle.wb_store.specs.Records.{is_known, is_known_slot};

use crate::containment::Link;
use crate::records::{Record, Slot, is_containment};
use crate::scalars::Scalar;
use std::alloc::{AllocError, Global};
use wb_metamodel::{FeatureId, Metamodel, ObjectId};

/// The links from all containers to what they contain.
pub fn containment_links(
    alloc: Global,
    metamodel: &Metamodel,
    records: &[Record],
) -> Result<Vec<Link>, AllocError>
    requires { list_all (is_known metamodel.now) records.now ≡ true }
    ensures { IfOk result (λ links. links.items ≡ links_of metamodel.now records.now) }
{
    let mut links = Vec::new(alloc);
    for record in records {
        push_slots(&mut links, metamodel, record.id, record.slots.as_slice())?;
    }
    Ok(links)
}

fn push_slots(
    links: &mut Vec<Link>,
    metamodel: &Metamodel,
    container: ObjectId,
    slots: &[Slot],
) -> Result<(), AllocError>
    requires { list_all (is_known_slot metamodel.now) slots.now ≡ true }
    ensures { OnOk result (links.new.items ≡ links.old.items ++ flat_map (slot_links metamodel.now container) slots.now) }
{
    for slot in slots {
        push_slot(links, metamodel, container, slot)?;
    }
    Ok(())
}

fn push_slot(
    links: &mut Vec<Link>,
    metamodel: &Metamodel,
    container: ObjectId,
    slot: &Slot,
) -> Result<(), AllocError>
    requires { is_known_slot metamodel.now slot.now ≡ true }
    ensures { OnOk result (links.new.items ≡ links.old.items ++ slot_links metamodel.now container slot.now) }
{
    if is_containment(metamodel, slot.feature) {
        push_values(links, container, slot.feature, slot.values.as_slice())
    } else {
        Ok(())
    }
}

fn push_values(
    links: &mut Vec<Link>,
    container: ObjectId,
    feature: FeatureId,
    values: &[Scalar],
) -> Result<(), AllocError>
    ensures { OnOk result (links.new.items ≡ links.old.items ++ flat_map (link container feature) values.now) }
{
    for value in values {
        if let Scalar::Object(object) = value {
            links.push(Link {
                container,
                feature,
                object: *object,
            })?;
        }
    }
    Ok(())
}
