ghost use Rattle.std.specs.Prelude.{◌≡◌};
ghost use Rattle.serde_json.specs.View.{view};
ghost use Rattle.wb_json.specs.Place.{at_member};
ghost use Rattle.wb_json.specs.Form.{Gives, needed, optional, list_or_empty, has};

use crate::form::Form;
use crate::wrong::Wrong;
use serde_json::Value;
use std::alloc::Global;
use wb_base::List;

/// Is the value an object that has this member?
pub fn has(value: &Value, name: &str) -> bool
    ensures { result ≡ has name.now (view value.now) }
{
    value.get(name).is_some()
}

/// The member of that name. Where it is missing, the object is wrong.
pub fn needed<T: Form>(alloc: Global, value: &Value, name: &str) -> Result<T, Wrong>
    ensures { Gives result (needed name.now T.form (view value.now)) }
{
    match value.get(name) {
        Some(part) => part_in(alloc, part, name),
        None => Err(Wrong::here(alloc)),
    }
}

/// The member of that name, if there is one.
pub fn optional<T: Form>(alloc: Global, value: &Value, name: &str) -> Result<Option<T>, Wrong>
    ensures { Gives result (optional name.now T.form (view value.now)) }
{
    match value.get(name) {
        Some(part) => Ok(Some(part_in(alloc, part, name)?)),
        None => Ok(None),
    }
}

/// The list that is the member of that name. Where it is missing, the list is empty.
pub fn list_or_empty<T: Form>(alloc: Global, value: &Value, name: &str) -> Result<List<T>, Wrong>
    ensures { Gives result (list_or_empty name.now T.form (view value.now)) }
{
    match value.get(name) {
        Some(part) => part_in(alloc, part, name),
        None => Ok(List::new(alloc)),
    }
}

pub(crate) fn part_in<T: Form>(alloc: Global, part: &Value, name: &str) -> Result<T, Wrong>
    ensures { Gives result (at_member name.now (T.form (view part.now))) }
{
    match T::read(alloc, part) {
        Ok(read) => Ok(read),
        Err(wrong) => Err(wrong.in_member(alloc, name)),
    }
}
