ghost use Rattle.std.specs.Prelude.{◌≡◌, map};
ghost use Rattle.std.specs.List.{enumerate_from};
ghost use Rattle.serde_json.specs.View.{view};
ghost use Rattle.wb_json.specs.Place.{at_index};
ghost use Rattle.wb_json.specs.Form.{Gives, list_of, item_of, in_turn};

use crate::form::Form;
use crate::wrong::Wrong;
use serde_json::Value;
use std::alloc::Global;
use wb_base::List;

/// A list of values of one form.
impl<T: Form> Form for List<T> {
    ghost form = { list_of T.form };

    #[tactic(auto, using(crate::proofs::Views::item_list_view), unfolding(crate::specs::Form::list_of))]
    fn read(alloc: Global, value: &Value) -> Result<List<T>, Wrong> {
        match value.as_array() {
            Some(values) => items(alloc, values.as_slice()),
            None => Err(Wrong::here(alloc)),
        }
    }
}

fn items<T: Form>(alloc: Global, values: &[Value]) -> Result<List<T>, Wrong>
    ensures { Gives result (in_turn (item_of T.form) (enumerate_from 0 (map view values.now))) }
{
    let mut items = Vec::new(alloc);
    for (index, value) in values.iter().enumerate() {
        items.push(item_at(alloc, index, value)?)?;
    }
    Ok(List::from_vec(items))
}

fn item_at<T: Form>(alloc: Global, index: usize, value: &Value) -> Result<T, Wrong>
    ensures { Gives result (at_index index (T.form (view value.now))) }
{
    match T::read(alloc, value) {
        Ok(item) => Ok(item),
        Err(wrong) => Err(wrong.in_item(alloc, index)),
    }
}
