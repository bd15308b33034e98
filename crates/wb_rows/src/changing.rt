ghost use Rattle.std.specs.Prelude.{◌≡◌, ◌++◌, IfOk, OnOk, filter, map};
ghost use Rattle.std.specs.Option.{option_copied};
ghost use Rattle.std.specs.Cmp.Lexicographic.{slice_cmp};
ghost use Rattle.wb_outer.specs.Keeper.{changed};
ghost use Rattle.wb_outer.specs.declared.keeper.RowChange.TheVariants.{Put};
ghost use Rattle.wb_rows.specs.Changes.{changes_between, erase, is_fresh, is_gone};
ghost use Rattle.wb_rows.specs.Texts.{Ascend, key_cmp, text_at};

use std::alloc::{AllocError, Global};
use std::cmp::Ordering;
use wb_base::{Duplicate, List};
use wb_outer::{Bytes, Row, RowChange};

/// The changes that make the new rows of the old ones: exactly the rows that differ.
pub fn changes(alloc: Global, old: &[Row], new: &[Row]) -> Result<List<RowChange>, AllocError>
    requires old { Ascend old.now }
    requires new { Ascend new.now }
    ensures exact { IfOk result (λ it. it ≡ changes_between old.now new.now) }
    ensures made { IfOk result (λ it. changed it old.now ≡ new.now) }
{
    let mut changes = Vec::new(alloc);
    erase_gone(alloc, &mut changes, old, new)?;
    put_fresh(alloc, &mut changes, old, new)?;
    Ok(List::from_vec(changes))
}

// Erases the old rows that the new ones have no key of.
fn erase_gone(
    alloc: Global,
    changes: &mut Vec<RowChange>,
    old: &[Row],
    new: &[Row],
) -> Result<(), AllocError>
    requires { Ascend new.now }
    ensures { OnOk result (changes.new.items ≡ changes.old.items ++ map erase (filter (is_gone new.now) old.now)) }
{
    for row in old {
        if text_at(new, &row.key).is_none() {
            changes.push(RowChange::Erase(row.key.copy(alloc)?))?;
        }
    }
    Ok(())
}

// Puts the new rows whose keys the old ones have not, or with another text.
fn put_fresh(
    alloc: Global,
    changes: &mut Vec<RowChange>,
    old: &[Row],
    new: &[Row],
) -> Result<(), AllocError>
    requires { Ascend old.now }
    ensures { OnOk result (changes.new.items ≡ changes.old.items ++ map Put (filter (is_fresh old.now) new.now)) }
{
    for row in new {
        if is_fresh(old, row) {
            changes.push(RowChange::Put(row.copy(alloc)?))?;
        }
    }
    Ok(())
}

fn is_fresh(old: &[Row], row: &Row) -> bool
    requires { Ascend old.now }
    ensures { result ≡ is_fresh old.now row.now }
{
    match text_at(old, &row.key) {
        Some(text) => text != &row.text,
        None => true,
    }
}

// The text that a key has among ascending rows, which are halved until it is found.
fn text_at<'a>(rows: &'a [Row], key: &Bytes) -> Option<&'a Bytes>
    requires { Ascend rows.now }
    ensures { option_copied result ≡ text_at rows.now key.now }
{
    match rows.binary_search_by(
        |row| -> Ordering
            ensures { result ≡ key_cmp row.now.key key.entry.now }
        { row.key.cmp(key) },
    ) {
        Ok(place) => Some(&rows[place].text),
        Err(_) => None,
    }
}
