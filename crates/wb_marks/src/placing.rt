ghost use Rattle.std.specs.Prelude.{◌≡◌, ◌≤◌, length, IfOk};
ghost use Rattle.wb_layout.specs.Positions.{IsInRange};
ghost use Rattle.wb_marks.specs.Marks.{arranged, placed};

use crate::marks::Marks;
use std::alloc::{AllocError, Global};
use wb_base::Duplicate;
use wb_diagram::Key;
use wb_layout::LayoutLog;

impl Marks {
    /// An element is placed, right and down from its parent.
    pub fn placed(&self, alloc: Global, key: &Key, x: i64, y: i64) -> Result<Marks, AllocError>
        requires { IsInRange (x, y) }
        ensures { IfOk result (λ marks. marks ≡ placed key.now (x, y) self.now) }
    {
        let mut marks = self.copy(alloc)?;
        marks
            .layout
            .place(alloc, key.copy(alloc)?, x, y, &mut LayoutLog::new())?;
        Ok(marks)
    }

    /// The elements of these keys are laid in the grids of their parents, in the order of the keys.
    pub fn arranged(&self, alloc: Global, placeable: &[Key]) -> Result<Marks, AllocError>
        requires { length placeable.now ≤ 100000 }
        ensures { IfOk result (λ marks. marks ≡ arranged placeable.now self.now) }
    {
        let mut marks = self.copy(alloc)?;
        marks
            .layout
            .arrange(alloc, placeable, &mut LayoutLog::new())?;
        Ok(marks)
    }
}
