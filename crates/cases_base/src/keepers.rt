//! Keepers in memory.
use crate::shown::{as_text, line};
use std::alloc::{AllocError, Global};
use wb_outer::{Bytes, Committed, Keeper, Loaded, Row, RowChange, SureKeeper};

fn row(alloc: Global, key: &str, text: &str) -> Result<Row, AllocError> {
    let key = Bytes::from_slice(alloc, key.as_bytes())?;
    let text = Bytes::from_slice(alloc, text.as_bytes())?;
    Ok(Row { key, text })
}

fn rows(alloc: Global, spelled: &[(&str, &str)]) -> Result<Vec<Row>, AllocError> {
    let mut rows = Vec::new(alloc);
    for (key, text) in spelled {
        rows.push(row(alloc, *key, *text)?)?;
    }
    Ok(rows)
}

/// The row is put, and without a text that of the key is erased.
fn change(alloc: Global, key: &str, text: &str) -> Result<RowChange, AllocError> {
    if text.is_empty() {
        return Ok(RowChange::Erase(Bytes::from_slice(alloc, key.as_bytes())?));
    }
    Ok(RowChange::Put(row(alloc, key, text)?))
}

fn changes(alloc: Global, spelled: &[(&str, &str)]) -> Result<Vec<RowChange>, AllocError> {
    let mut changes = Vec::new(alloc);
    for (key, text) in spelled {
        changes.push(change(alloc, *key, *text)?)?;
    }
    Ok(changes)
}

fn push_rows<K: Keeper>(
    alloc: Global,
    shown: &mut String,
    keeper: &mut K,
) -> Result<(), AllocError> {
    match keeper.load(alloc)? {
        Loaded::Rows(rows) => {
            for row in rows.as_slice() {
                line(
                    shown,
                    as_text(row.key.as_slice()),
                    as_text(row.text.as_slice()),
                )?;
            }
            Ok(())
        }
        Loaded::Failed => line(shown, "load", "failed"),
    }
}

fn committed_word(committed: Committed) -> &'static str {
    match committed {
        Committed::Done => "done",
        Committed::Failed => "failed",
        Committed::NoMemory => "no memory",
    }
}

pub fn push(alloc: Global, shown: &mut String) -> Result<(), AllocError> {
    let mut keeper = SureKeeper::new(rows(alloc, &[("b", "1"), ("a", "2")])?);
    push_rows(alloc, shown, &mut keeper)?;
    let changes = changes(alloc, &[("c", "3"), ("a", "4"), ("b", ""), ("ab", "5")])?;
    let committed = keeper.commit(alloc, changes.as_slice());
    line(shown, "commit", committed_word(committed))?;
    push_rows(alloc, shown, &mut keeper)
}
