ghost use Rattle.std.specs.Prelude.{◌≡◌, ◌<◌, ◌^◌, true};
ghost use Rattle.std.specs.List.{list_all};
ghost use Rattle.wb_validity.specs.Ranges.{is_in_range};

use crate::rows::{ObjectRow, RowSlot};
use wb_model::Scalar;

/// The numbers and texts of a row are those of its types. It looks at each value, and changes nothing.
pub fn row_is_in_range(row: &ObjectRow)
    ensures { list_all (λ slot. list_all is_in_range slot.values) row.now.slots ≡ true }
{
    slots_are_in_range(row.slots.as_slice());
}

fn slots_are_in_range(slots: &[RowSlot])
    ensures { list_all (λ slot. list_all is_in_range slot.values) slots.now ≡ true }
{
    for slot in slots {
        values_are_in_range(slot.values.as_slice());
    }
}

fn values_are_in_range(values: &[Scalar])
    ensures { list_all is_in_range values.now ≡ true }
{
    for value in values {
        value_is_in_range(value);
    }
}

fn value_is_in_range(value: &Scalar)
    ensures { is_in_range value.now ≡ true }
{
    match value {
        Scalar::Int(number) => {
            let _width = *number;
        }
        Scalar::Text(text) => {
            let _text = text.as_slice();
        }
        Scalar::Object(o) => {
            has_width(o.0);
        }
        Scalar::Bool(_) => {}
        Scalar::Literal(..) => {}
    }
}

fn has_width(_number: u32)
    ensures { _number < 2 ^ 32 }
{}
