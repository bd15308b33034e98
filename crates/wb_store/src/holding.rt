ghost use Rattle.std.specs.Prelude.{◌≡◌, ◌↔◌, true, false, IfOk, IsTrue, length, All, None};
ghost use Rattle.wb_store.specs.invariants.Links.{Notes, AreHolders};
ghost use Rattle.wb_store.specs.Places.{rises};
ghost use Rattle.wb_store.specs.Records.{id_of};

use crate::containment::Link;
use crate::records::{Record, place_of_object};
use std::alloc::{AllocError, Global};
use wb_base::List;

/// By place of the objects: the first link by which each is held, and whether another link holds it too.
#[derive(Drop)]
pub struct Holding {
    pub first: List<Option<Link>>,
    pub twice: List<bool>,
}

/// The links by which objects are held.
pub fn holders(alloc: Global, records: &[Record], links: &[Link]) -> Result<Holding, AllocError>
    requires { rises id_of records.now ≡ true }
    ensures { IfOk result (λ holders. AreHolders records.now links.now holders.first holders.twice) }
{
    let mut first = nothing_held(alloc, records)?;
    let mut twice = none_twice(alloc, records)?;
    for link in links {
        note(records, &mut first, &mut twice, *link);
    }
    Ok(Holding {
        first: List::from_vec(first),
        twice: List::from_vec(twice),
    })
}

fn nothing_held(alloc: Global, records: &[Record]) -> Result<Vec<Option<Link>>, AllocError>
    ensures each { IfOk result (λ holders. length holders.items ≡ length records.now) }
    ensures none { IfOk result (λ holders. All (λ holder. holder ≡ None) holders.items) }
{
    let mut holders = Vec::new(alloc);
    for _record in records {
        holders.push(None)?;
    }
    Ok(holders)
}

fn none_twice(alloc: Global, records: &[Record]) -> Result<Vec<bool>, AllocError>
    ensures each { IfOk result (λ twice. length twice.items ≡ length records.now) }
    ensures none { IfOk result (λ twice. All (λ t. t ≡ false) twice.items) }
{
    let mut twice = Vec::new(alloc);
    for _record in records {
        twice.push(false)?;
    }
    Ok(twice)
}

// Takes up a further link.
fn note(records: &[Record], first: &mut Vec<Option<Link>>, twice: &mut Vec<bool>, link: Link)
    requires ordered { rises id_of records.now ≡ true }
    requires each { length first.old.items ≡ length records.now }
    requires each_twice { length twice.old.items ≡ length records.now }
    ensures { Notes records.now link first.old.items twice.old.items first.new.items twice.new.items }
{
    match place_of_object(records, link.object) {
        None => {}
        Some(place) => match first[place] {
            None => first[place] = Some(link),
            Some(held) => {
                if !is_same(held, link) {
                    twice[place] = true;
                }
            }
        },
    }
}

fn is_same(a: Link, b: Link) -> bool
    ensures { IsTrue result ↔ (a ≡ b) }
{
    a == b
}
