//! Rows, changes and answers of keepers.
use crate::shown::{as_text, line};
use std::alloc::{AllocError, Global};
use wb_outer::{Bytes, Committed, Keeper, Loaded, Row, RowChange};

/// A row of these texts.
pub fn row(alloc: Global, key: &str, text: &str) -> Result<Row, AllocError> {
    let key = Bytes::from_slice(alloc, key.as_bytes())?;
    let text = Bytes::from_slice(alloc, text.as_bytes())?;
    Ok(Row { key, text })
}

/// The row is put, and without a text that of the key is erased.
fn change(alloc: Global, key: &str, text: &str) -> Result<RowChange, AllocError> {
    if text.is_empty() {
        return Ok(RowChange::Erase(Bytes::from_slice(alloc, key.as_bytes())?));
    }
    Ok(RowChange::Put(row(alloc, key, text)?))
}

fn changes(alloc: Global, spelled: &[(&str, &str)]) -> Result<Vec<RowChange>, AllocError> {
    let mut changes = Vec::new(alloc);
    for (key, text) in spelled {
        changes.push(change(alloc, *key, *text)?)?;
    }
    Ok(changes)
}

/// Each row as a line: its key and its text.
pub fn push_rows(shown: &mut String, rows: &[Row]) -> Result<(), AllocError> {
    for row in rows {
        line(
            shown,
            as_text(row.key.as_slice()),
            as_text(row.text.as_slice()),
        )?;
    }
    Ok(())
}

/// Asks for the rows, and shows them.
pub fn push_load<K: Keeper>(
    alloc: Global,
    shown: &mut String,
    keeper: &mut K,
) -> Result<(), AllocError> {
    match keeper.load(alloc)? {
        Loaded::Rows(rows) => {
            line(shown, "load", "rows")?;
            push_rows(shown, rows.as_slice())
        }
        Loaded::Failed => line(shown, "load", "failed"),
    }
}

fn committed_word(committed: Committed) -> &'static str {
    match committed {
        Committed::Done => "done",
        Committed::Failed => "failed",
        Committed::NoMemory => "no memory",
    }
}

/// Commits these changes and shows the answer. A key is put with its text, and without a text it is erased.
pub fn push_commit<K: Keeper>(
    alloc: Global,
    shown: &mut String,
    keeper: &mut K,
    spelled: &[(&str, &str)],
) -> Result<(), AllocError> {
    let changes = changes(alloc, spelled)?;
    let committed = keeper.commit(alloc, changes.as_slice());
    line(shown, "commit", committed_word(committed))
}
