//! Rows in their order, and what changes make of them.
ghost use Rattle.std.specs.Prelude.{◌≡◌, ◌≤◌, IfOk, length, insert};
ghost use Rattle.std.specs.List.Sorted.{IsPermutation};
ghost use Rattle.wb_outer.specs.Keeper.{IsAscending, erased, inserted, changed_by, changed};

use std::alloc::{AllocError, Global};
use wb_base::{Duplicate, List};
use wb_outer::{Bytes, Row, RowChange};

/// The rows, ascending by key.
pub fn sorted(mut rows: Vec<Row>) -> Vec<Row>
    ensures all { IsPermutation rows.items result.items }
    ensures ascending { IsAscending result.items }
{
    rows.sort_unstable_by(|row, other| row.key.cmp(&other.key));
    rows
}

// The rows without those of a key.
fn without(alloc: Global, rows: Vec<Row>, key: &Bytes) -> Result<Vec<Row>, AllocError>
    ensures { IfOk result (λ rows'. rows'.items ≡ erased key.now rows.items) }
{
    rows.into_iter()
        .filter(|row| row.key != *key)
        .collect(alloc)
}

// The place where a row goes.
fn place_of(rows: &[Row], row: &Row) -> usize
    ensures within { result ≤ length rows.now }
    ensures place { insert rows.now result row.now ≡ inserted row.now rows.now }
{
    for (place, other) in rows.iter().enumerate() {
        if row.key.cmp(&other.key).is_lt() {
            return place;
        }
    }
    rows.len()
}

// The rows and a copy of one more, before the first one with a greater key.
fn with(alloc: Global, mut rows: Vec<Row>, row: &Row) -> Result<Vec<Row>, AllocError>
    ensures { IfOk result (λ rows'. rows'.items ≡ inserted row.now rows.items) }
{
    let place = place_of(rows.as_slice(), row);
    rows.insert(place, row.copy(alloc)?)?;
    Ok(rows)
}

// The rows after one change.
fn after_change(alloc: Global, rows: Vec<Row>, change: &RowChange) -> Result<Vec<Row>, AllocError>
    ensures { IfOk result (λ rows'. rows'.items ≡ changed_by change.now rows.items) }
{
    match change {
        RowChange::Put(row) => with(alloc, without(alloc, rows, &row.key)?, row),
        RowChange::Erase(key) => without(alloc, rows, key),
    }
}

/// A copy of the rows after all changes.
pub fn after_changes(
    alloc: Global,
    rows: &List<Row>,
    changes: &[RowChange],
) -> Result<List<Row>, AllocError>
    ensures { IfOk result (λ rows'. rows' ≡ changed changes.now rows.now) }
{
    let mut kept = rows.copy(alloc)?.into_vec();
    for change in changes {
        kept = after_change(alloc, kept, change)?;
    }
    Ok(List::from_vec(kept))
}
