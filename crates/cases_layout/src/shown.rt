//! Keys and positions, as lines.
use std::alloc::{AllocError, Global};
use wb_base::List;
use wb_diagram::{AnyKey, Key, read_key};
use wb_layout::Layout;

/// The key that a text spells; one without pairs where it spells none.
pub fn key(alloc: Global, text: &str) -> Result<Key, AllocError> {
    match read_key(alloc, text.as_bytes())? {
        Some(AnyKey::Node(key)) => Ok(key),
        _ => Ok(Key {
            pairs: List::new(alloc),
        }),
    }
}

pub fn keys(alloc: Global, texts: &[&str]) -> Result<Vec<Key>, AllocError> {
    let mut keys = Vec::new(alloc);
    for text in texts {
        keys.push(key(alloc, *text)?)?;
    }
    Ok(keys)
}

/// The position of an element, as a line.
pub fn push_position(
    alloc: Global,
    shown: &mut String,
    layout: &Layout,
    text: &str,
) -> Result<(), AllocError> {
    let key = key(alloc, text)?;
    match layout.at(&key) {
        Some((x, y)) => write!(shown, "{text}: {x} {y}\n"),
        None => write!(shown, "{text}: none\n"),
    }
}

pub fn push_positions(
    alloc: Global,
    shown: &mut String,
    layout: &Layout,
    texts: &[&str],
) -> Result<(), AllocError> {
    for text in texts {
        push_position(alloc, shown, layout, *text)?;
    }
    Ok(())
}
