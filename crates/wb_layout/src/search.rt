ghost use Rattle.std.specs.Prelude.{◌≡◌, slice_get, option_copied, OnOk, OnErr};
ghost use Rattle.std.specs.FinMap as map;
ghost use Rattle.std.specs.Ordering.{is_lt};
ghost use Rattle.wb_layout.specs.Orders.{key_cmp, same_key};
ghost use Rattle.wb_layout.specs.invariants.Entries.{Ascend};
ghost use Rattle.wb_layout.specs.invariants.Searches.{IsPlace, StandsAt};

use std::alloc::AllocError;
use wb_diagram::Key;

// Does a key come before another?
fn is_before(key: &Key, other: &Key) -> bool
    ensures { result ≡ is_lt (key_cmp key.now other.now) }
{
    key.cmp(other).is_lt()
}

fn is_same(key: &Key, other: &Key) -> bool
    ensures { result ≡ same_key key.now other.now }
{
    key.cmp(other).is_eq()
}

// How many entries come before a key. They are halved until it is found.
fn place_of(entries: &[(Key, (i64, i64))], key: &Key) -> usize
    requires { Ascend entries.now }
    ensures { IsPlace key.now entries.now result }
{
    entries.partition_point(
        |p| -> bool
            ensures { result ≡ is_lt (key_cmp p.now.0 key.entry.now) }
        { is_before(&p.0, key) },
    )
}

/// The entry at a place.
pub(crate) fn entry_at(entries: &[(Key, (i64, i64))], i: usize) -> Option<&(Key, (i64, i64))>
    ensures { option_copied result ≡ slice_get entries.now i }
{
    entries.get(i)
}

/// The position at a key.
pub(crate) fn found(entries: &[(Key, (i64, i64))], key: &Key) -> Option<(i64, i64)>
    requires { Ascend entries.now }
    ensures { result ≡ map.find key_cmp key.now entries.now }
{
    let i = place_of(entries, key);
    match entry_at(entries, i) {
        Some(p) => { if is_same(key, &p.0) { Some(p.1) } else { None } }
        None => None,
    }
}

/// The key has this position, and the others stay.
pub(crate) fn put(
    entries: &mut Vec<(Key, (i64, i64))>,
    key: Key,
    at: (i64, i64),
) -> Result<(), AllocError>
    requires { Ascend entries.old.items }
    ensures ok { OnOk result (entries.new.items ≡ map.put key_cmp key at entries.old.items) }
    ensures err { OnErr result (entries.new.items ≡ entries.old.items) }
{
    let i = place_of(entries.as_slice(), &key);
    if stands_at(entries.as_slice(), i, &key) {
        entries[i].1 = at;
        return Ok(());
    }
    entries.insert(i, (key, at))?;
    Ok(())
}

fn stands_at(entries: &[(Key, (i64, i64))], i: usize, key: &Key) -> bool
    ensures { StandsAt key.now entries.now i result }
{
    match entry_at(entries, i) {
        Some(p) => is_same(key, &p.0),
        None => false,
    }
}
