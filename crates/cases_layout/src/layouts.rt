//! Positions that are given, laid and dropped.
use crate::shown::{key, keys, push_position, push_positions};
use std::alloc::{AllocError, Global};
use wb_diagram::Key;
use wb_layout::{Layout, LayoutLog, is_in_range};

/// Two books and an author with a list item, and a member: those that can be placed, in declared order.
const LIBRARY: [&str; 4] = ["0.2", "0.3", "1.6", "3.4"];

/// The same with the list item.
const ELEMENTS: [&str; 5] = ["0.2", "0.3", "1.6", "3.4", "1.6-2.2"];

/// Ten children of the diagram, with three of the first and two of the second among them.
const SHELVES: [&str; 15] = [
    "0.9", "0.9-1.3", "0.9-1.2", "0.8", "0.8-1.2", "0.7", "0.6", "0.9-1.4", "0.5", "0.4", "0.3",
    "0.8-1.1", "0.2", "0.1", "1.0",
];

/// Places, and whether an element can be put there.
const PLACES: [(&str, i64, i64); 6] = [
    ("0.1", 1_000_000, -1_000_000),
    ("0.2", -1_000_000, 1_000_000),
    ("0.3", 1_000_001, 0),
    ("0.4", 0, -1_000_001),
    ("0.5", -9_223_372_036_854_775_808, 0),
    ("0.2", 3, -4),
];

/// One that is moved, one that is laid, and one that is dropped.
const CHANGED: [&str; 3] = ["0.2", "0.3", "1.6-2.2"];

pub fn place(
    alloc: Global,
    layout: &mut Layout,
    text: &str,
    x: i64,
    y: i64,
    log: &mut LayoutLog,
) -> Result<(), AllocError> {
    if is_in_range(x, y) {
        layout.place(alloc, key(alloc, text)?, x, y, log)?;
    }
    Ok(())
}

fn arrange(
    alloc: Global,
    layout: &mut Layout,
    texts: &[&str],
    log: &mut LayoutLog,
) -> Result<(), AllocError> {
    let placeable = keys(alloc, texts)?;
    if placeable.len() <= 100_000 {
        layout.arrange(alloc, placeable.as_slice(), log)?;
    }
    Ok(())
}

/// The keys that have positions, in order.
fn push_keys(shown: &mut String, layout: &Layout) -> Result<(), AllocError> {
    for i in 0..100 {
        match layout.key(i) {
            Some(key) => push_key(shown, key)?,
            None => return shown.push_str("no more\n"),
        }
    }
    Ok(())
}

fn push_key(shown: &mut String, key: &Key) -> Result<(), AllocError> {
    for pair in key.pairs.as_slice() {
        write!(shown, "-{}.{}", pair.mapping, pair.object.0)?;
    }
    shown.push_str("\n")
}

pub fn push(alloc: Global, shown: &mut String) -> Result<(), AllocError> {
    push_library(alloc, shown)?;
    push_shelves(alloc, shown)?;
    push_places(alloc, shown)?;
    push_two_containers(alloc, shown)?;
    push_reversed(alloc, shown)
}

/// The grid of one parent, over a position that was given by hand; then only two of the elements are still declared.
fn push_library(alloc: Global, shown: &mut String) -> Result<(), AllocError> {
    let mut layout = Layout::new(alloc);
    let mut log = LayoutLog::new();
    push_keys(shown, &layout)?;
    place(alloc, &mut layout, "0.3", 7, 8, &mut log)?;
    arrange(alloc, &mut layout, &LIBRARY, &mut log)?;
    push_positions(alloc, shown, &layout, &ELEMENTS)?;
    layout.restrict(
        alloc,
        keys(alloc, &["3.4", "0.3", "0.7"])?.as_slice(),
        &mut log,
    )?;
    push_positions(alloc, shown, &layout, &ELEMENTS)?;
    push_keys(shown, &layout)
}

/// The grids of three parents, beside a position that stays.
fn push_shelves(alloc: Global, shown: &mut String) -> Result<(), AllocError> {
    let mut layout = Layout::new(alloc);
    let mut log = LayoutLog::new();
    place(alloc, &mut layout, "0.10", -5, 6, &mut log)?;
    arrange(alloc, &mut layout, &SHELVES, &mut log)?;
    push_positions(alloc, shown, &layout, &SHELVES)?;
    push_position(alloc, shown, &layout, "0.10")?;
    push_keys(shown, &layout)
}

fn push_places(alloc: Global, shown: &mut String) -> Result<(), AllocError> {
    let mut layout = Layout::new(alloc);
    let mut log = LayoutLog::new();
    for (text, x, y) in PLACES {
        place(alloc, &mut layout, text, x, y, &mut log)?;
    }
    push_positions(alloc, shown, &layout, &["0.1", "0.2", "0.3", "0.4", "0.5"])
}

/// One book in two containers has two positions.
fn push_two_containers(alloc: Global, shown: &mut String) -> Result<(), AllocError> {
    let mut layout = Layout::new(alloc);
    let mut log = LayoutLog::new();
    place(alloc, &mut layout, "1.6-2.2", 1, 1, &mut log)?;
    place(alloc, &mut layout, "1.7-2.2", 2, 2, &mut log)?;
    push_positions(alloc, shown, &layout, &["1.6-2.2", "1.7-2.2", "0.2"])
}

/// Three changes of one log are taken back together, and made again; a log of none changes nothing.
fn push_reversed(alloc: Global, shown: &mut String) -> Result<(), AllocError> {
    let mut layout = Layout::new(alloc);
    let mut first = LayoutLog::new();
    place(alloc, &mut layout, "0.2", 1, 2, &mut first)?;
    place(alloc, &mut layout, "1.6-2.2", 3, 4, &mut first)?;
    let mut log = LayoutLog::new();
    place(alloc, &mut layout, "0.2", 5, 6, &mut log)?;
    layout.restrict(alloc, keys(alloc, &["0.3", "0.2"])?.as_slice(), &mut log)?;
    arrange(alloc, &mut layout, &["0.3"], &mut log)?;
    push_positions(alloc, shown, &layout, &CHANGED)?;
    let again = layout.reverse(log);
    push_positions(alloc, shown, &layout, &CHANGED)?;
    let _back = layout.reverse(again);
    let _none = layout.reverse(LayoutLog::new());
    push_positions(alloc, shown, &layout, &CHANGED)
}
