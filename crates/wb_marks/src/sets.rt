ghost use Rattle.std.specs.Prelude.{IfOk};
ghost use Rattle.wb_marks.specs.Ones.{SameItems};

use indexmap::IndexSet;
use std::alloc::{AllocError, Global};
use std::hash::Hash;
use wb_base::Duplicate;

/// Copies of the items, as a set.
pub fn set_of<T: Eq + Hash + Duplicate>(
    alloc: Global,
    items: &[T],
) -> Result<IndexSet<T>, AllocError>
    ensures { IfOk result (λ set. SameItems T.eq items.now set.keys) }
{
    let mut set = IndexSet::new(alloc);
    for item in items {
        set.insert_full(item.copy(alloc)?)?;
    }
    Ok(set)
}
