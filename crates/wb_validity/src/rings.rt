ghost use Rattle.std.specs.Prelude.{◌≡◌, ◌<◌, false, IfOk, All, length, map};
ghost use Rattle.std.specs.List.{HoldsAt};
ghost use Rattle.wb_validity.specs.Broken.{least};
ghost use Rattle.wb_validity.specs.invariants.Rings.{IsContainerPlace, IsAbove, IsFarAbove, beyond, with_met, AreMet};
ghost use Rattle.wb_store.specs.invariants.Links.{Kept, KnowsHolders};
ghost use Rattle.wb_validity.specs.ValidTest.{is_within};

use std::alloc::{AllocError, Global};
use wb_metamodel::ObjectId;
use wb_store::{Link, Record, Store, first_marked, place_of_object};

/// The least object that contains itself, directly or through others.
pub fn object_on_ring(
    alloc: Global,
    store: &Store,
    records: &[Record],
    holders: &[Option<Link>],
) -> Result<Option<ObjectId>, AllocError>
    requires kept { Kept store.now records.now }
    requires knows { KnowsHolders store.now records.now holders.now }
    ensures { IfOk result (λ object. object ≡ least store.now (λ o c. is_within store.now o o)) }
{
    let above = far_above(alloc, store, records, holders)?;
    let met = met_places(alloc, above.as_slice())?;
    Ok(first_marked(records, met.as_slice()))
}

// The place above each, at least as many steps up as there are objects: a way of that length goes round a ring.
fn far_above(
    alloc: Global,
    store: &Store,
    records: &[Record],
    holders: &[Option<Link>],
) -> Result<Vec<Option<usize>>, AllocError>
    requires kept { Kept store.now records.now }
    requires knows { KnowsHolders store.now records.now holders.now }
    ensures { IfOk result (λ above. IsFarAbove store.now records.now (length records.now) above.items) }
{
    let mut above = containers(alloc, store, records, holders)?;
    let mut steps = 1;
    while steps < records.len() {
        above = twice_as_far(alloc, above.as_slice())?;
        steps *= 2;
    }
    Ok(above)
}

// The place of the container of each object.
fn containers(
    alloc: Global,
    store: &Store,
    records: &[Record],
    holders: &[Option<Link>],
) -> Result<Vec<Option<usize>>, AllocError>
    requires kept { Kept store.now records.now }
    requires knows { KnowsHolders store.now records.now holders.now }
    ensures { IfOk result (λ above. IsAbove store.now records.now 1 above.items) }
{
    let mut above = Vec::new(alloc);
    for at in 0..records.len() {
        above.push(container_place(store, records, holders, at))?;
    }
    Ok(above)
}

// The place of the container of the object at a place.
fn container_place(
    store: &Store,
    records: &[Record],
    holders: &[Option<Link>],
    at: usize,
) -> Option<usize>
    requires kept { Kept store.now records.now }
    requires knows { KnowsHolders store.now records.now holders.now }
    requires within { at < length records.now }
    ensures { HoldsAt (λ object. IsContainerPlace store.now records.now object.id result) records.now at }
{
    match holders[at] {
        None => None,
        Some(link) => place_of_object(records, link.container),
    }
}

fn twice_as_far(alloc: Global, above: &[Option<usize>]) -> Result<Vec<Option<usize>>, AllocError>
    ensures { IfOk result (λ further. further.items ≡ map (beyond above.now) above.now) }
{
    let mut further = Vec::new(alloc);
    for place in above {
        further.push(beyond(above, *place))?;
    }
    Ok(further)
}

fn beyond(above: &[Option<usize>], place: Option<usize>) -> Option<usize>
    ensures { result ≡ beyond above.now place }
{
    match place {
        None => None,
        Some(i) => { if i < above.len() { above[i] } else { None } }
    }
}

// Which places are above another.
fn met_places(alloc: Global, above: &[Option<usize>]) -> Result<Vec<bool>, AllocError>
    ensures { IfOk result (λ met. AreMet above.now met.items) }
{
    let mut met = none_met(alloc, above)?;
    for place in above {
        meet(&mut met, *place);
    }
    Ok(met)
}

fn none_met(alloc: Global, above: &[Option<usize>]) -> Result<Vec<bool>, AllocError>
    ensures each { IfOk result (λ met. length met.items ≡ length above.now) }
    ensures none { IfOk result (λ met. All (λ m. m ≡ false) met.items) }
{
    let mut met = Vec::new(alloc);
    for _place in above {
        met.push(false)?;
    }
    Ok(met)
}

fn meet(met: &mut Vec<bool>, place: Option<usize>)
    ensures { met.new.items ≡ with_met met.old.items place }
{
    if let Some(i) = place {
        if i < met.len() {
            met[i] = true;
        }
    }
}
