ghost use Rattle.std.specs.Prelude.{◌≡◌, IfOk, OnOk};
ghost use Rattle.wb_marks.specs.Ones.{with_one, without_one};

use std::alloc::{AllocError, Global};
use wb_base::{Duplicate, List};

/// Puts a copy of an item last, unless one like it is there.
pub fn put_one<T: PartialEq + Duplicate>(
    alloc: Global,
    items: &mut List<T>,
    item: &T,
) -> Result<(), AllocError>
    ensures { OnOk result (items.new ≡ with_one T.eq item.now items.old) }
{
    if items.as_slice().contains(item) {
        return Ok(());
    }
    items.push(item.copy(alloc)?)?;
    Ok(())
}

/// Copies of the items that are not like one.
pub fn without_one<T: PartialEq + Duplicate>(
    alloc: Global,
    items: &[T],
    item: &T,
) -> Result<List<T>, AllocError>
    ensures { IfOk result (λ others. others ≡ without_one T.eq item.now items.now) }
{
    let mut others = List::new(alloc);
    for other in items {
        if item != other {
            others.push(other.copy(alloc)?)?;
        }
    }
    Ok(others)
}
