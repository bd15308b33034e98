ghost use Rattle.std.specs.Prelude.{◌≡◌, false, refl, IfOk, option_map};
ghost use Rattle.serde_json.specs.Data.{Data, boolean, number, string, unsigned};
ghost use Rattle.serde_json.specs.Find.{of_integer};
ghost use Rattle.serde_json.specs.View.{view};
ghost use Rattle.serde_json.specs.Written.{has_float, compact_text};
ghost use Rattle.wb_json.specs.ToJson.{list_json, option_json};
ghost use Rattle.wb_json.specs.NoFloats.{integer_no_float, list_no_float, option_no_float};

use crate::names::Name;
use crate::texts::write_json;
use serde_json::Value;
use std::alloc::{AllocError, Global};
use wb_base::{List, Text};

/// A type whose values are written as JSON.
pub trait ToJson {
    /// The value that is written.
    ghost json: { Self → Data };

    /// The value as JSON.
    fn to_json(&self, alloc: Global) -> Result<Value, AllocError>
        ensures { IfOk result (λ value. view value ≡ json self.now) };

    /// No float is written, so the text is fixed.
    ghost no_float: { (x : Self) → has_float (json x) ≡ false };
}

/// The text of a value, with no space and members ascending by bytes.
pub fn to_text<T: ToJson>(alloc: Global, value: &T) -> Result<Text, AllocError>
    ensures { IfOk result (λ text. text ≡ compact_text (T.json value.now)) }
{
    write_json(alloc, &value.to_json(alloc)?)
}

impl ToJson for bool {
    ghost json = { boolean };

    ghost no_float = { λ _. refl };

    fn to_json(&self, _alloc: Global) -> Result<Value, AllocError> {
        Ok(Value::from(*self))
    }
}

impl ToJson for u32 {
    ghost json = { λ n. number (unsigned n) };

    ghost no_float = { λ _. refl };

    fn to_json(&self, _alloc: Global) -> Result<Value, AllocError> {
        Ok(Value::from(*self))
    }
}

impl ToJson for u64 {
    ghost json = { λ n. number (unsigned n) };

    ghost no_float = { λ _. refl };

    fn to_json(&self, _alloc: Global) -> Result<Value, AllocError> {
        Ok(Value::from(*self))
    }
}

impl ToJson for i64 {
    ghost json = { λ z. number (of_integer z) };

    ghost no_float = { integer_no_float };

    fn to_json(&self, _alloc: Global) -> Result<Value, AllocError> {
        Ok(Value::from(*self))
    }
}

impl ToJson for Text {
    ghost json = { string };

    ghost no_float = { λ _. refl };

    fn to_json(&self, alloc: Global) -> Result<Value, AllocError> {
        Value::try_from_str(alloc, self.as_str())
    }
}

impl ToJson for Name {
    ghost json = { string };

    ghost no_float = { λ _. refl };

    fn to_json(&self, alloc: Global) -> Result<Value, AllocError> {
        Value::try_from_str(alloc, self.as_str())
    }
}

/// `null` for none.
impl<T: ToJson> ToJson for Option<T> {
    ghost json = { option_json T.json };

    ghost no_float = { option_no_float T.json T.no_float };

    fn to_json(&self, alloc: Global) -> Result<Value, AllocError> {
        match self {
            Some(value) => value.to_json(alloc),
            None => Ok(Value::Null),
        }
    }
}

impl<T: ToJson> ToJson for List<T> {
    ghost json = { list_json T.json };

    ghost no_float = { list_no_float T.json T.no_float };

    #[tactic(auto, unfolding(crate::specs::ToJson::list_json))]
    fn to_json(&self, alloc: Global) -> Result<Value, AllocError> {
        let mut values = Vec::new(alloc);
        for item in self.as_slice() {
            values.push(item.to_json(alloc)?)?;
        }
        Ok(Value::from(values))
    }
}
