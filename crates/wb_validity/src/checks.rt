ghost use Rattle.wb_validity.specs.Broken.{shown_by, unless, broken, broken_number, broken_first, broken_values, broken_holding, broken_containment};
ghost use Rattle.wb_validity.specs.Flaws.{Finds};
ghost use Rattle.wb_validity.specs.invariants.LinkSets.{KnowsLinks};
ghost use Rattle.wb_store.specs.invariants.Links.{Kept, KnowsHolders};

use crate::conditions::{
    Condition, abstract_object, breaking_object, crowded_object, misnumbered_object,
};
use crate::flaws::Flaw;
use crate::link_set::LinkSet;
use crate::rings::object_on_ring;
use crate::uncontained::roots_are_uncontained;
use std::alloc::Global;
use wb_metamodel::ObjectId;
use wb_store::{Link, ObjectSet, Record, Store, containment_links, first_marked, holders};

/// The first condition of a valid model that is broken. The objects that are `wrong` have a slot that is not written
/// as it is to be.
pub fn check_all(alloc: Global, store: &Store, wrong: &ObjectSet) -> Result<(), Flaw>
    ensures { Finds result (broken store.now wrong.now) }
{
    let links = LinkSet::new(alloc, store)?;
    check_linked(alloc, store, &links, wrong)
}

fn check_linked(
    alloc: Global,
    store: &Store,
    links: &LinkSet,
    wrong: &ObjectSet,
) -> Result<(), Flaw>
    requires { KnowsLinks store.now links.now }
    ensures { Finds result (broken store.now wrong.now) }
{
    check_first(alloc, store, links, wrong)?;
    check_values(alloc, store, links)?;
    check_containment(alloc, store)
}

fn check_first(alloc: Global, store: &Store, links: &LinkSet, wrong: &ObjectSet) -> Result<(), Flaw>
    requires { KnowsLinks store.now links.now }
    ensures { Finds result (broken_first store.now wrong.now) }
{
    check_numbers(store)?;
    passed(2, abstract_object(store))?;
    passed(3, breaking_object(alloc, store, links, Condition::OfClass)?)?;
    passed(4, crowded_object(alloc, store, links, wrong)?)
}

fn check_numbers(store: &Store) -> Result<(), Flaw>
    ensures { Finds result (broken_number store.now) }
{
    if store.next() == 0 {
        return Err(Flaw::Whole(1));
    }
    passed(1, misnumbered_object(store))
}

fn check_values(alloc: Global, store: &Store, links: &LinkSet) -> Result<(), Flaw>
    requires { KnowsLinks store.now links.now }
    ensures { Finds result (broken_values store.now) }
{
    passed(5, breaking_object(alloc, store, links, Condition::OfKinds)?)?;
    passed(6, breaking_object(alloc, store, links, Condition::Differ)?)?;
    passed(
        7,
        breaking_object(alloc, store, links, Condition::HeldBack)?,
    )
}

// A condition is passed, unless an object shows that it is broken.
fn passed(number: u8, object: Option<ObjectId>) -> Result<(), Flaw>
    ensures { Finds result (shown_by number object) }
{
    match object {
        None => Ok(()),
        Some(o) => Err(Flaw::At(number, o)),
    }
}

fn check_containment(alloc: Global, store: &Store) -> Result<(), Flaw>
    ensures { Finds result (broken_containment store.now) }
{
    let records = store.records();
    let links = containment_links(alloc, store.metamodel(), records)?;
    let holders = holders(alloc, records, links.as_slice())?;
    passed(8, first_marked(records, holders.twice.as_slice()))?;
    check_holding(alloc, store, records, holders.first.as_slice())
}

fn check_holding(
    alloc: Global,
    store: &Store,
    records: &[Record],
    holders: &[Option<Link>],
) -> Result<(), Flaw>
    requires kept { Kept store.now records.now }
    requires knows { KnowsHolders store.now records.now holders.now }
    ensures { Finds result (broken_holding store.now) }
{
    passed(9, object_on_ring(alloc, store, records, holders)?)?;
    if roots_are_uncontained(alloc, store, records, holders)? {
        Ok(())
    } else {
        Err(Flaw::Whole(10))
    }
}
