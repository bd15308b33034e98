ghost use Rattle.std.specs.Prelude.{List, ℕ, Result};
ghost use Rattle.serde_json.specs.Data.{Data};
ghost use Rattle.serde_json.specs.View.{view};
ghost use Rattle.wb_json.specs.Form.{Gives, nullable, bool_of, text_of, integer_of, u32_of};

use crate::wrong::Wrong;
use serde_json::Value;
use std::alloc::Global;
use wb_base::Text;

/// A type that is read from JSON values of one form.
pub trait Form: Drop {
    /// What a value stands for, or the first wrong place in it.
    ghost form: { Data → Result Self (List ℕ) };

    /// Reads a value of the form.
    fn read(alloc: Global, value: &Value) -> Result<Self, Wrong>
    where
        Self: Sized,
        ensures { Gives result (form (view value.now)) };
}

impl Form for bool {
    ghost form = { bool_of };

    fn read(alloc: Global, value: &Value) -> Result<bool, Wrong> {
        value.as_bool().ok_or(Wrong::here(alloc))
    }
}

/// Any string.
impl Form for Text {
    ghost form = { text_of };

    fn read(alloc: Global, value: &Value) -> Result<Text, Wrong> {
        match value.as_str() {
            Some(text) => Ok(Text::from_str(alloc, text)?),
            None => Err(Wrong::here(alloc)),
        }
    }
}

/// An integer of 64 signed bits.
impl Form for i64 {
    ghost form = { integer_of };

    fn read(alloc: Global, value: &Value) -> Result<i64, Wrong> {
        value.as_i64().ok_or(Wrong::here(alloc))
    }
}

/// An integer from 0 to 4,294,967,295.
impl Form for u32 {
    ghost form = { u32_of };

    fn read(alloc: Global, value: &Value) -> Result<u32, Wrong> {
        match value.as_u64() {
            Some(number) if number <= u32::MAX as u64 => Ok(number as u32),
            _ => Err(Wrong::here(alloc)),
        }
    }
}

/// The value, or `null` for none.
impl<T: Form> Form for Option<T> {
    ghost form = { nullable T.form };

    fn read(alloc: Global, value: &Value) -> Result<Option<T>, Wrong> {
        if value.is_null() {
            Ok(None)
        } else {
            Ok(Some(T::read(alloc, value)?))
        }
    }
}
