//! Members, each read as what a command has.
ghost use Rattle.std.specs.Prelude.{◌≡◌};
ghost use Rattle.serde_json.specs.View.{view};
ghost use Rattle.wb_json.specs.Form.{Gives, name_of, needed, nullable, optional, u32_of};
ghost use Rattle.wb_commands.specs.Forms.{given_of, key_of};

use crate::given::GivenValue;
use crate::spelled::SpelledKey;
use std::alloc::Global;
use wb_base::Text;
use wb_diagram::{AnyKey, Given, ObjectId};
use wb_json::{Name, Value, Wrong, needed, optional};

pub(crate) fn object_at(alloc: Global, value: &Value, name: &str) -> Result<ObjectId, Wrong>
    ensures { Gives result (needed name.now u32_of (view value.now)) }
{
    Ok(ObjectId(needed(alloc, value, name)?))
}

pub(crate) fn name_at(alloc: Global, value: &Value, name: &str) -> Result<Text, Wrong>
    ensures { Gives result (needed name.now name_of (view value.now)) }
{
    let found: Name = needed(alloc, value, name)?;
    Ok(found.into_text())
}

pub(crate) fn value_at(alloc: Global, value: &Value, name: &str) -> Result<Given, Wrong>
    ensures { Gives result (needed name.now given_of (view value.now)) }
{
    let found: GivenValue = needed(alloc, value, name)?;
    Ok(found.into_value())
}

pub(crate) fn key_at(alloc: Global, value: &Value, name: &str) -> Result<AnyKey, Wrong>
    ensures { Gives result (needed name.now key_of (view value.now)) }
{
    let found: SpelledKey = needed(alloc, value, name)?;
    Ok(found.into_key())
}

/// A key, or `null`.
pub(crate) fn key_or_null_at(
    alloc: Global,
    value: &Value,
    name: &str,
) -> Result<Option<AnyKey>, Wrong>
    ensures { Gives result (needed name.now (nullable key_of) (view value.now)) }
{
    Ok(unwrapped(needed(alloc, value, name)?))
}

/// A key, if there is one.
pub(crate) fn key_if_any_at(
    alloc: Global,
    value: &Value,
    name: &str,
) -> Result<Option<AnyKey>, Wrong>
    ensures { Gives result (optional name.now key_of (view value.now)) }
{
    Ok(unwrapped(optional(alloc, value, name)?))
}

/// A key or `null`, if there is one.
pub(crate) fn key_or_null_if_any_at(
    alloc: Global,
    value: &Value,
    name: &str,
) -> Result<Option<Option<AnyKey>>, Wrong>
    ensures { Gives result (optional name.now (nullable key_of) (view value.now)) }
{
    match optional(alloc, value, name)? {
        Some(found) => Ok(Some(unwrapped(found))),
        None => Ok(None),
    }
}

fn unwrapped(found: Option<SpelledKey>) -> Option<AnyKey>
    ensures { result ≡ found }
{
    match found {
        Some(found) => Some(found.into_key()),
        None => None,
    }
}
