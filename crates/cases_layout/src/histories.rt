//! Steps that are undone and done again.
use crate::layouts::place;
use crate::shown::{key, push_position};
use std::alloc::{AllocError, Global};
use wb_base::Duplicate;
use wb_history::History;
use wb_layout::{Layout, LayoutLog};

/// Goes one step back, from what stands now; `None` where nothing can be undone.
fn undo<E: Drop>(history: &mut History<E>, now: E) -> Option<E> {
    let before = history.undo_entry()?;
    history.push_future(now);
    Some(before)
}

/// Goes one step forward again, from what stands now; `None` where nothing can be done again.
fn redo<E: Drop>(history: &mut History<E>, now: E) -> Option<E> {
    let after = history.redo_entry()?;
    history.push_past(now);
    Some(after)
}

fn push_number(shown: &mut String, case: &str, found: Option<u32>) -> Result<(), AllocError> {
    match found {
        Some(number) => write!(shown, "{case}: {number}\n"),
        None => write!(shown, "{case}: nothing\n"),
    }
}

pub fn push(alloc: Global, shown: &mut String) -> Result<(), AllocError> {
    push_hundred(alloc, shown)?;
    push_few(alloc, shown)?;
    push_dropped(alloc, shown)
}

/// How many steps could be undone; `None` where there were 200 and more.
fn undo_all(history: &mut History<u32>, now: &mut u32) -> Option<u32> {
    for undone in 0..200 {
        match undo(history, *now) {
            Some(before) => *now = before,
            None => return Some(undone),
        }
    }
    None
}

/// After 101 steps from 0 on, as far back as it goes, and one step forward.
fn push_hundred(alloc: Global, shown: &mut String) -> Result<(), AllocError> {
    let mut history = History::new(alloc, 100)?;
    for step in 0..101u32 {
        history.push(step);
    }
    let mut now = 101;
    push_number(shown, "undone", undo_all(&mut history, &mut now))?;
    push_number(shown, "now", Some(now))?;
    push_number(shown, "past", history.newest_past().copied())?;
    push_number(shown, "future", history.newest_future().copied())?;
    push_number(shown, "again", redo(&mut history, now))
}

/// Two steps are kept, and what was undone is gone after another step.
fn push_few(alloc: Global, shown: &mut String) -> Result<(), AllocError> {
    let mut history = History::new(alloc, 2)?;
    push_number(shown, "past", history.newest_past().copied())?;
    push_number(shown, "future", history.newest_future().copied())?;
    history.push(1);
    history.push(2);
    push_number(shown, "undone", undo(&mut history, 3))?;
    push_number(shown, "undone", undo(&mut history, 2))?;
    push_number(shown, "again", redo(&mut history, 1))?;
    history.push(5);
    push_number(shown, "past", history.newest_past().copied())?;
    push_number(shown, "again", redo(&mut history, 6))
}

/// A position is dropped with its element, and comes back with undo.
fn push_dropped(alloc: Global, shown: &mut String) -> Result<(), AllocError> {
    let mut layout = Layout::new(alloc);
    let mut log = LayoutLog::new();
    place(alloc, &mut layout, "1.6-2.2", 5, 5, &mut log)?;
    let mut history = History::new(alloc, 100)?;
    history.push(layout.copy(alloc)?);
    layout.restrict(alloc, &[key(alloc, "1.7-2.2")?], &mut log)?;
    push_position(alloc, shown, &layout, "1.6-2.2")?;
    match undo(&mut history, layout) {
        Some(layout) => push_position(alloc, shown, &layout, "1.6-2.2"),
        None => shown.push_str("nothing to undo\n"),
    }
}
