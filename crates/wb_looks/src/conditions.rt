ghost use Rattle.std.specs.Prelude.{◌≡◌, IfOk};
ghost use Rattle.std.specs.List.{list_any};
ghost use Rattle.wb_looks.specs.Conditions.{SameMarks, active_mappings, is_clear_at, is_flagged, is_on_active};
ghost use Rattle.wb_looks.specs.Visible.{is_active};

use crate::numbers::mapping_number;
use indexmap::IndexSet;
use std::alloc::{AllocError, Global};
use wb_base::{Duplicate, List};
use wb_diagram::AnyKey;
use wb_spec_check::CheckedMapping;

/// What keys are shown by.
#[derive(Drop)]
pub struct Conditions<'a> {
    /// By mapping, whether its layer is active.
    pub active: &'a [bool],
    /// The numbers of the active filters.
    pub filters: &'a [u32],
    /// By filter, which of the keys it hides where it is active.
    pub hides: &'a [List<bool>],
    /// The keys that are marked hidden.
    pub hidden: &'a IndexSet<AnyKey>,
}

/// By mapping, whether its layer is active.
pub fn active_mappings(
    alloc: Global,
    mappings: &[CheckedMapping],
    layers: &[u32],
) -> Result<Vec<bool>, AllocError>
    ensures { IfOk result (λ active. active.items ≡ active_mappings mappings.now layers.now) }
{
    let mut active = Vec::new(alloc);
    for mapping in mappings {
        active.push(is_active(layers, mapping.layer))?;
    }
    Ok(active)
}

fn is_active(layers: &[u32], layer: u32) -> bool
    ensures { result ≡ is_active layers.now layer }
{
    layer == 0 || layers.contains(&layer)
}

/// The keys that are marked hidden, as a set.
pub fn marks(alloc: Global, hidden: &[AnyKey]) -> Result<IndexSet<AnyKey>, AllocError>
    ensures { IfOk result (λ set. SameMarks hidden.now set.keys) }
{
    let mut set = IndexSet::new(alloc);
    for key in hidden {
        set.insert_full(key.copy(alloc)?)?;
    }
    Ok(set)
}

/// Is the key at this place clear? Its layer is active, no active filter hides it, and it has no hidden mark.
#[tactic(auto, unfolding(crate::specs::Conditions::is_clear_at))]
pub fn is_clear(conditions: &Conditions<'_>, place: usize, key: &AnyKey) -> bool
    ensures { result ≡ is_clear_at conditions.now place key.now }
{
    is_on_active(conditions.active, key)
        && !is_filtered_out(conditions.hides, conditions.filters, place)
        && !conditions.hidden.contains(key)
}

fn is_on_active(active: &[bool], key: &AnyKey) -> bool
    ensures { result ≡ is_on_active active.now key.now }
{
    match mapping_number(key) {
        Some(mapping) => active.get(mapping as usize).copied().unwrap_or(false),
        None => false,
    }
}

fn is_filtered_out(hides: &[List<bool>], filters: &[u32], place: usize) -> bool
    ensures { result ≡ list_any (is_flagged hides.now place) filters.now }
{
    filters
        .iter()
        .any(|filter| is_flagged(hides, place, *filter))
}

fn is_flagged(hides: &[List<bool>], place: usize, filter: u32) -> bool
    ensures { result ≡ is_flagged hides.now place filter }
{
    match hides.get(filter as usize) {
        Some(flags) => flags.as_slice().get(place).copied().unwrap_or(false),
        None => false,
    }
}
