ghost use Rattle.std.specs.Prelude.{◌≡◌, ◌≤◌, IfOk, OnErr, length, insert};
ghost use Rattle.std.specs.List.Sorted.{IsPermutation};
ghost use Rattle.wb_outer.specs.Keeper.{IsAscending, Loads, Commits, erased, inserted, changed_by, changed, sure_told};
ghost use Rattle.wb_outer.specs.declared.keeper.Loaded.TheVariants.{Rows};

use crate::bytes::Bytes;
use crate::keeper::{Committed, Keeper, Loaded, Row, RowChange};
use std::alloc::{AllocError, Global};
use std::marker::Model;
use wb_base::{Duplicate, List};

/// Rows in memory. No call fails.
#[derive(Debug, Drop)]
pub struct SureKeeper {
    rows: List<Row>,
}

impl Model for SureKeeper {
    ghost use Rattle.std.specs.Prelude.{List};
    ghost use Rattle.wb_outer.specs.Keeper.{IsAscending};
    ghost use Rattle.wb_outer.specs.declared.keeper.Row.{Row};

    ghost Value = { List Row };

    ghost view = { λ k. k.rows };

    ghost invariant = { λ k. IsAscending k.rows };
}

impl SureKeeper {
    /// A keeper of these rows.
    pub fn new(rows: Vec<Row>) -> SureKeeper
        ensures all { IsPermutation rows.items result }
        ensures ascending { IsAscending result }
    {
        SureKeeper {
            rows: List::from_vec(sorted(rows)),
        }
    }
}

// The rows, ascending by key.
fn sorted(mut rows: Vec<Row>) -> Vec<Row>
    ensures all { IsPermutation rows.items result.items }
    ensures ascending { IsAscending result.items }
{
    rows.sort_unstable_by(|row, other| row.key.cmp(&other.key));
    rows
}

// The rows without those of a key.
fn without(alloc: Global, rows: Vec<Row>, key: &Bytes) -> Result<Vec<Row>, AllocError>
    ensures { IfOk result (λ rows'. rows'.items ≡ erased key.now rows.items) }
{
    rows.into_iter()
        .filter(|row| row.key != *key)
        .collect(alloc)
}

// The place where a row goes.
fn place_of(rows: &[Row], row: &Row) -> usize
    ensures within { result ≤ length rows.now }
    ensures place { insert rows.now result row.now ≡ inserted row.now rows.now }
{
    for (place, other) in rows.iter().enumerate() {
        if row.key.cmp(&other.key).is_lt() {
            return place;
        }
    }
    rows.len()
}

// The rows and a copy of one more, before the first one with a greater key.
fn with(alloc: Global, mut rows: Vec<Row>, row: &Row) -> Result<Vec<Row>, AllocError>
    ensures { IfOk result (λ rows'. rows'.items ≡ inserted row.now rows.items) }
{
    let place = place_of(rows.as_slice(), row);
    rows.insert(place, row.copy(alloc)?)?;
    Ok(rows)
}

// The rows after one change.
fn after_change(alloc: Global, rows: Vec<Row>, change: &RowChange) -> Result<Vec<Row>, AllocError>
    ensures { IfOk result (λ rows'. rows'.items ≡ changed_by change.now rows.items) }
{
    match change {
        RowChange::Put(row) => with(alloc, without(alloc, rows, &row.key)?, row),
        RowChange::Erase(key) => without(alloc, rows, key),
    }
}

// A copy of the rows after all changes.
fn after_changes(
    alloc: Global,
    rows: &List<Row>,
    changes: &[RowChange],
) -> Result<List<Row>, AllocError>
    ensures { IfOk result (λ rows'. rows' ≡ changed changes.now rows.now) }
{
    let mut kept = rows.copy(alloc)?.into_vec();
    for change in changes {
        kept = after_change(alloc, kept, change)?;
    }
    Ok(List::from_vec(kept))
}

impl Keeper for SureKeeper {
    ghost told = { sure_told };

    fn load(&mut self, alloc: Global) -> Result<Loaded, AllocError>
        ensures loads { IfOk result (Loads (sure_told self.old) (sure_told self.new)) }
        ensures memory { OnErr result (sure_told self.new ≡ sure_told self.old) }
        ensures rows { IfOk result (λ loaded. loaded ≡ Rows self.old) }
        ensures ascending { IsAscending self.old }
    {
        Ok(Loaded::Rows(self.rows.copy(alloc)?))
    }

    fn commit(&mut self, alloc: Global, changes: &[RowChange]) -> Committed
        ensures commits { Commits (sure_told self.old) (sure_told self.new) changes.now result }
        ensures sure { result ≡ Committed.Failed → ⊥ }
    {
        match after_changes(alloc, &self.rows, changes) {
            Ok(rows) => {
                self.rows = rows;
                Committed::Done
            }
            Err(_) => Committed::NoMemory,
        }
    }
}
