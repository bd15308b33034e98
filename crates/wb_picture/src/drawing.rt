ghost use Rattle.std.specs.Prelude.{◌≡◌, drop, false, slice_index_or, IfOk};
ghost use Rattle.std.specs.Option.{option_copied};
ghost use Rattle.wb_picture.specs.invariants.Drawn.{drawn, edge_with, element_with, visible_look};

use crate::copies::copy_of_look;
use std::alloc::{AllocError, Global};
use wb_base::{Duplicate, List};
use wb_diagram::{Edge, EdgeKey, Element, Key, Look};
use wb_layout::Layout;

/// The elements whose flags are set; looks and flags go beside the keys.
pub fn elements(
    alloc: Global,
    layout: &Layout,
    nodes: &[Key],
    looks: &[Look],
    flags: &[bool],
) -> Result<List<Element>, AllocError>
    ensures { IfOk result (λ elements. elements ≡ drawn (element_with layout.now) nodes.now looks.now flags.now) }
{
    let mut elements = Vec::new(alloc);
    for (place, key) in nodes.iter().enumerate() {
        if let Some(look) = visible_look(looks, flags, place) {
            elements.push(element_with(alloc, layout, key, look)?)?;
        }
    }
    Ok(List::from_vec(elements))
}

/// The edges whose flags are set; looks and flags go beside the keys.
pub fn edges(
    alloc: Global,
    edges: &[EdgeKey],
    looks: &[Look],
    flags: &[bool],
) -> Result<List<Edge>, AllocError>
    ensures { IfOk result (λ drawn_edges. drawn_edges ≡ drawn edge_with edges.now looks.now flags.now) }
{
    let mut drawn = Vec::new(alloc);
    for (place, key) in edges.iter().enumerate() {
        if let Some(look) = visible_look(looks, flags, place) {
            drawn.push(edge_with(alloc, key, look)?)?;
        }
    }
    Ok(List::from_vec(drawn))
}

/// What stands behind so many of the first.
pub fn behind<T>(items: &[T], count: usize) -> &[T]
    ensures { result.now ≡ drop count items.now }
{
    if count < items.len() {
        &items[count..]
    } else {
        &[]
    }
}

// The look at this place, if the flag there is set.
fn visible_look<'a>(looks: &'a [Look], flags: &[bool], place: usize) -> Option<&'a Look>
    ensures { option_copied result ≡ visible_look looks.now flags.now place }
{
    if is_set(flags, place) {
        looks.get(place)
    } else {
        None
    }
}

fn is_set(flags: &[bool], place: usize) -> bool
    ensures { result ≡ slice_index_or flags.now place false }
{
    flags.get(place).copied().unwrap_or(false)
}

fn element_with(
    alloc: Global,
    layout: &Layout,
    key: &Key,
    look: &Look,
) -> Result<Element, AllocError>
    ensures { IfOk result (λ element. element ≡ element_with layout.now key.now look.now) }
{
    Ok(Element {
        key: key.copy(alloc)?,
        look: copy_of_look(alloc, look)?,
        position: layout.at(key),
    })
}

fn edge_with(alloc: Global, key: &EdgeKey, look: &Look) -> Result<Edge, AllocError>
    ensures { IfOk result (λ edge. edge ≡ edge_with key.now look.now) }
{
    Ok(Edge {
        key: key.copy(alloc)?,
        look: copy_of_look(alloc, look)?,
    })
}
