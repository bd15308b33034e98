ghost use Rattle.std.specs.Prelude.{◌≡◌, false, flat_map, length, map, IfOk};
ghost use Rattle.wb_answers.specs.Seen.{Asks};
ghost use Rattle.wb_looks.specs.Filters.{filter_unit, filter_units, filtered, hides, is_filtered, mappings_of_filter};

use crate::numbers::mapping_number;
use std::alloc::Global;
use wb_answers::{Answers, Stop, is_true};
use wb_base::{Duplicate, List};
use wb_diagram::{AnyKey, Unit};
use wb_spec_check::CheckedViewpoint;

/// By filter, which of the keys it hides where it is active; each filter is asked of all keys of its mappings.
#[tactic(auto, unfolding(crate::specs::Filters::filtered, crate::specs::Filters::filter_units))]
pub fn filtered<A: Answers>(
    alloc: Global,
    spec: &CheckedViewpoint,
    keys: &[AnyKey],
    answers: &mut A,
) -> Result<List<List<bool>>, Stop>
    requires fine { (A.seen answers.old).over ≡ false }
    ensures value { IfOk result (λ hides. hides ≡ filtered spec.now (A.seen answers.old).told keys.now) }
    ensures asks { Asks (A.seen answers.old) (filter_units spec.now keys.now) result (A.seen answers.new) }
{
    let mut found = Vec::new(alloc);
    for filter in 0..filter_count(spec) {
        let flags = hidden_each(alloc, spec, filter, keys, answers)?;
        found.push(flags)?;
    }
    Ok(List::from_vec(found))
}

fn filter_count(spec: &CheckedViewpoint) -> u32
    ensures { result ≡ length spec.now.1.filters }
{
    spec.viewpoint().content().filters.len() as u32
}

// Which of the keys a filter hides where it is active.
fn hidden_each<A: Answers>(
    alloc: Global,
    spec: &CheckedViewpoint,
    filter: u32,
    keys: &[AnyKey],
    answers: &mut A,
) -> Result<List<bool>, Stop>
    requires { (A.seen answers.old).over ≡ false }
    ensures value { IfOk result (λ flags. flags ≡ map (hides spec.now (A.seen answers.old).told filter) keys.now) }
    ensures asks { Asks (A.seen answers.old) (flat_map (filter_unit spec.now filter) keys.now) result (A.seen answers.new) }
{
    let mut flags = Vec::new(alloc);
    for key in keys {
        let hides = hides(alloc, spec, filter, key, answers)?;
        flags.push(hides)?;
    }
    Ok(List::from_vec(flags))
}

// Does a filter hide the key where it is active? It is asked if the key's mapping is one of its own.
#[tactic(auto, using(wb_answers::proofs::SeenLaws::after_none))]
fn hides<A: Answers>(
    alloc: Global,
    spec: &CheckedViewpoint,
    filter: u32,
    key: &AnyKey,
    answers: &mut A,
) -> Result<bool, Stop>
    requires { (A.seen answers.old).over ≡ false }
    ensures value { IfOk result (λ b. b ≡ hides spec.now (A.seen answers.old).told filter key.now) }
    ensures asks { Asks (A.seen answers.old) (filter_unit spec.now filter key.now) result (A.seen answers.new) }
{
    if !is_filtered(spec, filter, key) {
        return Ok(false);
    }
    let key = key.copy(alloc)?;
    let answer = answers.answer(alloc, &Unit::Filter { filter, key })?;
    Ok(is_true(&answer))
}

#[tactic(auto, unfolding(crate::specs::Filters::is_filtered))]
fn is_filtered(spec: &CheckedViewpoint, filter: u32, key: &AnyKey) -> bool
    ensures { result ≡ is_filtered spec.now filter key.now }
{
    match mapping_number(key) {
        Some(mapping) => mappings_of_filter(spec, filter).contains(&mapping),
        None => false,
    }
}

fn mappings_of_filter(spec: &CheckedViewpoint, filter: u32) -> &[u32]
    ensures { result.now ≡ mappings_of_filter spec.now filter }
{
    match spec.parts().filters.as_slice().get(filter as usize) {
        Some(filter) => filter.mappings.as_slice(),
        None => &[],
    }
}
