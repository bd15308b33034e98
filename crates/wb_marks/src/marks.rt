ghost use Rattle.std.specs.Prelude.{◌≡◌};
ghost use Rattle.wb_marks.specs.Marks.{unmarked};

use std::alloc::{AllocError, Global};
use wb_base::{Duplicate, List};
use wb_diagram::{AnyKey, Key};
use wb_layout::Layout;

/// What users put on a diagram.
pub struct Marks {
    /// The keys that are marked shown, in the order of marking.
    pub shown: List<Key>,
    /// The keys that are marked hidden, in the order of marking.
    pub hidden: List<AnyKey>,
    /// Where elements were placed.
    pub layout: Layout,
    /// The active layers by number, beside the first, which is always active.
    pub layers: List<u32>,
    /// The active filters by number.
    pub filters: List<u32>,
}

impl Drop for Marks {
    fn drop(self) {
        let Marks {
            shown: _shown,
            hidden: _hidden,
            layout: _layout,
            layers: _layers,
            filters: _filters,
        } = self;
    }
}

impl Marks {
    /// Nothing is marked or placed, these layers are active, and no filter is.
    pub fn none(alloc: Global, layers: List<u32>) -> Marks
        ensures { result ≡ unmarked layers }
    {
        Marks {
            shown: List::new(alloc),
            hidden: List::new(alloc),
            layout: Layout::new(alloc),
            layers,
            filters: List::new(alloc),
        }
    }
}

impl Duplicate for Marks {
    fn copy(&self, alloc: Global) -> Result<Marks, AllocError> {
        Ok(Marks {
            shown: self.shown.copy(alloc)?,
            hidden: self.hidden.copy(alloc)?,
            layout: self.layout.copy(alloc)?,
            layers: self.layers.copy(alloc)?,
            filters: self.filters.copy(alloc)?,
        })
    }
}
