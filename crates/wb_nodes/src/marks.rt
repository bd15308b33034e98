ghost use Rattle.std.specs.Prelude.{◌≡◌, IfOk};
ghost use Rattle.wb_nodes.specs.Marks.{Marks};

use indexmap::IndexSet;
use std::alloc::{AllocError, Global};
use wb_base::Duplicate;
use wb_diagram::Key;

/// The keys that are marked shown, as a set.
pub fn marks(alloc: Global, shown: &[Key]) -> Result<IndexSet<Key>, AllocError>
    ensures { IfOk result (λ set. Marks shown.now set.keys) }
{
    let mut set = IndexSet::new(alloc);
    for key in shown {
        set.insert_full(key.copy(alloc)?)?;
    }
    Ok(set)
}
