//! Keepers in memory.
use cases_rows::{heading, push_commit, push_load, push_rows, row};
use std::alloc::{AllocError, Global};
use wb_keepers::MemoryKeeper;

/// The calls 1 and 3 fail.
pub fn push(alloc: Global, shown: &mut String) -> Result<(), AllocError> {
    heading(shown, "a keeper in memory that fails")?;
    let mut rows = Vec::new(alloc);
    rows.push(row(alloc, "b", "1")?)?;
    rows.push(row(alloc, "a", "2")?)?;
    let mut keeper = MemoryKeeper::new(alloc, rows, Vec::from_slice(alloc, &[1, 3])?)?;
    push_load(alloc, shown, &mut keeper)?;
    push_load(alloc, shown, &mut keeper)?;
    push_commit(
        alloc,
        shown,
        &mut keeper,
        &[("c", "3"), ("a", "4"), ("b", ""), ("ab", "5")],
    )?;
    push_commit(alloc, shown, &mut keeper, &[("a", "")])?;
    push_rows(shown, keeper.rows())?;
    push_commit(alloc, shown, &mut keeper, &[("a", ""), ("d", "6")])?;
    push_load(alloc, shown, &mut keeper)
}
