ghost use Rattle.std.specs.Prelude.{◌≡◌, [], ◌++◌, IfOk, OnOk, string_bytes};
ghost use Rattle.wb_json.specs.Form.{Within};
ghost use Rattle.wb_json.specs.declared.wrong.Wrong.TheVariants.{At};
ghost use Rattle.wb_spec_check.specs.Places.{place_of};

use std::alloc::{AllocError, Global};
use wb_base::Text;
use wb_json::Wrong;

/// The way from the whole of a viewpoint's text to a part of it.
#[derive(Clone, Copy)]
pub(crate) enum Path<'a> {
    Root,
    Member(&'a Path<'a>, &'a str),
    Item(&'a Path<'a>, usize),
}

/// The place to which a path leads: `#` and a JSON Pointer.
pub(crate) fn place(alloc: Global, path: &Path<'_>) -> Result<Text, AllocError>
    ensures { IfOk result (λ place. place ≡ place_of path.now) }
{
    let mut whole = String::new(alloc);
    push_place(alloc, &mut whole, path)?;
    Ok(Text::from_string(whole))
}

/// Puts the place last.
fn push_place(alloc: Global, whole: &mut String, path: &Path<'_>) -> Result<(), AllocError>
    ensures { OnOk result (string_bytes whole.new ≡ string_bytes whole.old ++ place_of path.now) }
{
    match path {
        Path::Root => whole.push_str("#"),
        Path::Member(outer, name) => {
            push_place(alloc, whole, outer)?;
            push_step(whole, Wrong::here(alloc).in_member(alloc, name))
        }
        Path::Item(outer, number) => {
            push_place(alloc, whole, outer)?;
            push_step(whole, Wrong::here(alloc).in_item(alloc, *number))
        }
    }
}

/// Puts a place last, seen from the one before it.
fn push_step(whole: &mut String, step: Wrong) -> Result<(), AllocError>
    ensures { (segment : _) → Within segment (At []) step → OnOk result (string_bytes whole.new ≡ string_bytes whole.old ++ segment) }
{
    match step {
        Wrong::At(place) => whole.push_str(place.as_str()),
        Wrong::NoMemory => Err(AllocError),
    }
}
