ghost use Rattle.std.specs.Prelude.{◌≡◌, ◌∷◌, ◌++◌, IfOk, OnOk, string_bytes, encode_utf8};
ghost use Rattle.std.specs.List.{flat_map};
ghost use Rattle.wb_json.specs.Place.{escape, pointer_segment, index_segment};
ghost use Rattle.wb_json.specs.Form.{Within, IsPlaced};

use crate::wrong::Wrong;
use std::alloc::{AllocError, Global};
use wb_base::Text;

impl Wrong {
    /// What is wrong in a member, seen from its object.
    pub fn in_member(self, alloc: Global, name: &str) -> Wrong
        ensures { Within (pointer_segment name.now) self result }
    {
        match self {
            Wrong::At(place) => placed(member_place(alloc, name, &place)),
            Wrong::NoMemory => Wrong::NoMemory,
        }
    }

    /// What is wrong in an item, seen from its list.
    pub fn in_item(self, alloc: Global, index: usize) -> Wrong
        ensures { Within (index_segment index) self result }
    {
        match self {
            Wrong::At(place) => placed(item_place(alloc, index, &place)),
            Wrong::NoMemory => Wrong::NoMemory,
        }
    }
}

fn placed(place: Result<Text, AllocError>) -> Wrong
    ensures { IsPlaced place result }
{
    match place {
        Ok(place) => Wrong::At(place),
        Err(_) => Wrong::NoMemory,
    }
}

#[tactic(auto, unfolding(crate::specs::Place::pointer_segment))]
fn member_place(alloc: Global, name: &str, place: &Text) -> Result<Text, AllocError>
    ensures { IfOk result (λ whole. whole ≡ pointer_segment name.now ++ place.now) }
{
    let mut whole = String::from_str(alloc, "/")?;
    push_escaped(&mut whole, name)?;
    whole.push_str(place.as_str())?;
    Ok(Text::from_string(whole))
}

#[tactic(auto, unfolding(crate::specs::Place::index_segment))]
fn item_place(alloc: Global, index: usize, place: &Text) -> Result<Text, AllocError>
    ensures { IfOk result (λ whole. whole ≡ index_segment index ++ place.now) }
{
    let mut whole = format!(in alloc; "/{index}")?;
    whole.push_str(place.as_str())?;
    Ok(Text::from_string(whole))
}

/// Puts a name last, with `~0` for `~` and `~1` for `/`.
fn push_escaped(whole: &mut String, name: &str) -> Result<(), AllocError>
    ensures { OnOk result (string_bytes whole.new ≡ string_bytes whole.old ++ flat_map escape name.now) }
{
    for character in name.chars() {
        push_one(whole, character)?;
    }
    Ok(())
}

#[tactic(auto, using(crate::proofs::Escapes::plain_char))]
fn push_one(whole: &mut String, character: char) -> Result<(), AllocError>
    ensures { OnOk result (string_bytes whole.new ≡ string_bytes whole.old ++ flat_map escape (encode_utf8 character)) }
{
    match character {
        '~' => whole.push_str("~0"),
        '/' => whole.push_str("~1"),
        _ => whole.push(character),
    }
}
