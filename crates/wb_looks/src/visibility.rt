ghost use Rattle.std.specs.Prelude.{◌≡◌, ◌&&◌, ◌||◌, All, Bool, IfOk, OnOk, length, map};
ghost use Rattle.wb_diagram.specs.declared.keys.AnyKey.{AnyKey};
ghost use Rattle.wb_diagram.specs.declared.keys.Key.{Key};
ghost use Rattle.wb_answers.specs.SameKeys.{among};
ghost use Rattle.wb_answers.specs.Seen.{Told};
ghost use Rattle.wb_looks.specs.Conditions.{Block, Tell, is_blocked_at, is_unblocked, is_visible_at};
ghost use Rattle.wb_looks.specs.Filters.{filtered};
ghost use Rattle.wb_looks.specs.Visible.{HasGround, is_node_visible, is_path_visible, is_visible, is_visible_by, switches_of};

use crate::conditions::{Conditions, active_mappings, is_clear, marks};
use crate::switches::Switches;
use indexmap::IndexSet;
use std::alloc::{AllocError, Global};
use wb_base::{Duplicate, List};
use wb_diagram::{AnyKey, EdgeKey, Key, Pair};
use wb_spec_check::CheckedViewpoint;

/// Which of the keys are visible, where `hides` is what `filtered` found of them. They stand in any order.
pub fn visible(
    alloc: Global,
    spec: &CheckedViewpoint,
    keys: &[AnyKey],
    hides: &[List<bool>],
    switches: &Switches<'_>,
) -> Result<List<bool>, AllocError>
    requires grounded { All (HasGround keys.now) keys.now }
    ensures { (told : Told) → hides.now ≡ filtered spec.now told keys.now
        → IfOk result (λ flags. flags ≡ map (is_visible spec.now told (switches_of switches.now)) keys.now) }
{
    let active = active_mappings(alloc, spec.parts().mappings.as_slice(), switches.layers)?;
    let hidden = marks(alloc, switches.hidden)?;
    let conditions = Conditions {
        active: active.as_slice(),
        filters: switches.filters,
        hides,
        hidden: &hidden,
    };
    let blocked = blocked(alloc, &conditions, keys)?;
    visible_each(alloc, &conditions, &blocked, keys)
}

// The elements among the keys that are not clear.
fn blocked(
    alloc: Global,
    conditions: &Conditions<'_>,
    keys: &[AnyKey],
) -> Result<IndexSet<Key>, AllocError>
    ensures { (clear : AnyKey → Bool) → Tell conditions.now keys.now clear → IfOk result (λ set. Block clear keys.now set.keys) }
{
    let mut set = IndexSet::new(alloc);
    for (place, key) in keys.iter().enumerate() {
        block(alloc, conditions, place, key, &mut set)?;
    }
    Ok(set)
}

// Puts the element of a key into the set, if it is not clear.
fn block(
    alloc: Global,
    conditions: &Conditions<'_>,
    place: usize,
    key: &AnyKey,
    set: &mut IndexSet<Key>,
) -> Result<(), AllocError>
    ensures { OnOk result ((it : Key) → among set.new.keys it ≡ (among set.old.keys it || is_blocked_at conditions.now place key.now it)) }
{
    if let AnyKey::Node(node) = key {
        if !is_clear(conditions, place, key) {
            set.insert_full(node.copy(alloc)?)?;
        }
    }
    Ok(())
}

// For each of the keys, whether it is visible.
fn visible_each(
    alloc: Global,
    conditions: &Conditions<'_>,
    blocked: &IndexSet<Key>,
    keys: &[AnyKey],
) -> Result<List<bool>, AllocError>
    requires { All (HasGround keys.now) keys.now }
    ensures { (clear : AnyKey → Bool) → Tell conditions.now keys.now clear → Block clear keys.now blocked.now.keys
        → IfOk result (λ flags. flags ≡ map (is_visible_by clear) keys.now) }
{
    let mut flags = Vec::new(alloc);
    for (place, key) in keys.iter().enumerate() {
        let flag = is_visible(alloc, conditions, blocked, place, key)?;
        flags.push(flag)?;
    }
    Ok(List::from_vec(flags))
}

#[tactic(auto, unfolding(crate::specs::Conditions::is_visible_at))]
fn is_visible(
    alloc: Global,
    conditions: &Conditions<'_>,
    blocked: &IndexSet<Key>,
    place: usize,
    key: &AnyKey,
) -> Result<bool, AllocError>
    ensures { IfOk result (λ b. b ≡ is_visible_at conditions.now blocked.now.keys place key.now) }
{
    match key {
        AnyKey::Node(node) => is_unblocked(alloc, blocked, node.pairs.as_slice()),
        AnyKey::Edge(edge) => {
            if !is_clear(conditions, place, key) {
                return Ok(false);
            }
            has_visible_ends(alloc, blocked, edge)
        }
    }
}

fn has_visible_ends(
    alloc: Global,
    blocked: &IndexSet<Key>,
    key: &EdgeKey,
) -> Result<bool, AllocError>
    ensures { IfOk result (λ b. b ≡ (is_node_visible (is_unblocked blocked.now.keys) key.now.source && is_node_visible (is_unblocked blocked.now.keys) key.now.target)) }
{
    if !is_unblocked(alloc, blocked, key.source.pairs.as_slice())? {
        return Ok(false);
    }
    is_unblocked(alloc, blocked, key.target.pairs.as_slice())
}

// Is no element on the way down this path blocked?
fn is_unblocked(alloc: Global, blocked: &IndexSet<Key>, path: &[Pair]) -> Result<bool, AllocError>
    ensures { IfOk result (λ b. b ≡ is_path_visible (is_unblocked blocked.now.keys) (length path.now) path.now) }
{
    let mut above = Key {
        pairs: List::new(alloc),
    };
    for pair in path {
        above.pairs.push(*pair)?;
        if blocked.contains(&above) {
            return Ok(false);
        }
    }
    Ok(true)
}
