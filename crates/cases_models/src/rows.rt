//! Texts of single objects.
use crate::shown::{push_class, push_feature, push_values};
use std::alloc::{AllocError, Global};
use wb_metamodel::Metamodel;
use wb_model_json::{ObjectRow, read_object};

/// `object {"class":"Book","slots":{}}`: the class of the row that is read, and its slots.
pub fn push_row_of(
    alloc: Global,
    shown: &mut String,
    metamodel: &Metamodel,
    text: &str,
) -> Result<(), AllocError> {
    match read_object(alloc, metamodel, text.as_bytes())? {
        Some(row) => push_read_row(shown, metamodel, &row),
        None => shown.push_str("no row"),
    }
}

fn push_read_row(
    shown: &mut String,
    metamodel: &Metamodel,
    row: &ObjectRow,
) -> Result<(), AllocError> {
    push_class(shown, metamodel, row.class)?;
    for slot in row.slots.as_slice() {
        shown.push_str(" ")?;
        push_feature(shown, metamodel, slot.feature)?;
        shown.push_str(" ")?;
        push_values(shown, slot.values.as_slice())?;
    }
    Ok(())
}
