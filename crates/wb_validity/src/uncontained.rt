ghost use Rattle.std.specs.Prelude.{◌≡◌, ◌↔◌, true, false, IfOk, IsTrue, All, length};
ghost use Rattle.std.specs.Bool.{OnTrue, OnFalse};
ghost use Rattle.wb_store.specs.invariants.Links.{Kept, KnowsHolders};
ghost use Rattle.wb_store.specs.Places.{rises};
ghost use Rattle.wb_store.specs.Records.{id_of};
ghost use Rattle.wb_validity.specs.invariants.Roots.{TakesRoot, IsNoRoot, AllSeen, IsUnseen};
ghost use Rattle.wb_validity.specs.Valid.{RootsAreUncontained};

use std::alloc::{AllocError, Global};
use wb_metamodel::ObjectId;
use wb_store::{Link, Record, Store, place_of_object};

/// Does the list of roots hold, each once, exactly the objects that stand in no containment slot?
pub fn roots_are_uncontained(
    alloc: Global,
    store: &Store,
    records: &[Record],
    holders: &[Option<Link>],
) -> Result<bool, AllocError>
    requires kept { Kept store.now records.now }
    requires knows { KnowsHolders store.now records.now holders.now }
    ensures { IfOk result (λ are. IsTrue are ↔ RootsAreUncontained store.now) }
{
    let mut seen = none_seen(alloc, records)?;
    for root in store.roots() {
        if !take_root(records, holders, &mut seen, *root) {
            return Ok(false);
        }
    }
    Ok(all_seen(holders, seen.as_slice()))
}

fn none_seen(alloc: Global, records: &[Record]) -> Result<Vec<bool>, AllocError>
    ensures each { IfOk result (λ seen. length seen.items ≡ length records.now) }
    ensures none { IfOk result (λ seen. All (λ s. s ≡ false) seen.items) }
{
    let mut seen = Vec::new(alloc);
    for _record in records {
        seen.push(false)?;
    }
    Ok(seen)
}

// Takes up a root, unless it is not live, stands in a containment slot, or was taken up before.
fn take_root(
    records: &[Record],
    holders: &[Option<Link>],
    seen: &mut Vec<bool>,
    root: ObjectId,
) -> bool
    requires ordered { rises id_of records.now ≡ true }
    requires holders { length holders.now ≡ length records.now }
    requires seen { length seen.old.items ≡ length records.now }
    ensures taken { OnTrue result (TakesRoot records.now holders.now root seen.old.items seen.new.items) }
    ensures refused { OnFalse result (IsNoRoot records.now holders.now root seen.old.items) }
{
    match place_of_object(records, root) {
        None => false,
        Some(place) => match holders[place] {
            Some(_) => false,
            None => {
                if seen[place] {
                    return false;
                }
                seen[place] = true;
                true
            }
        },
    }
}

// Was each object seen that stands in no containment slot?
fn all_seen(holders: &[Option<Link>], seen: &[bool]) -> bool
    requires { length seen.now ≡ length holders.now }
    ensures all { OnTrue result (AllSeen holders.now seen.now) }
    ensures one { OnFalse result (IsUnseen holders.now seen.now) }
{
    for (i, holder) in holders.iter().enumerate() {
        if holder.is_none() && !seen[i] {
            return false;
        }
    }
    true
}
