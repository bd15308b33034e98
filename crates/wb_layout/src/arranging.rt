ghost use Rattle.std.specs.Prelude.{◌≡◌, ◌+◌, ◌<◌, ◌≤◌, if◌then◌else◌, length, IfOk, OnOk, OnErr};
ghost use Rattle.wb_diagram.specs.declared.keys.Key.{Key};
ghost use Rattle.wb_layout.specs.Grid.{arranged, grid, parent_of};
ghost use Rattle.wb_layout.specs.Logs.{noted, start};
ghost use Rattle.wb_layout.specs.Orders.{same_key};
ghost use Rattle.wb_layout.specs.Positions.{placed};
ghost use Rattle.wb_layout.specs.invariants.Seen.{seen_of};

use crate::grid::grid;
use crate::growing::Growing;
use crate::layout::Layout;
use crate::layout_log::LayoutLog;
use crate::siblings::Siblings;
use std::alloc::{AllocError, Global};
use wb_base::Duplicate;
use wb_diagram::Key;

impl Layout {
    /// Lays the elements of these keys in grids, one for each parent, in the order of the keys. Other positions stay.
    pub fn arrange(
        &mut self,
        alloc: Global,
        placeable: &[Key],
        log: &mut LayoutLog,
    ) -> Result<(), AllocError>
        requires { length placeable.now ≤ 100000 }
        ensures ok { OnOk result (self.new ≡ arranged self.old placeable.now) }
        ensures err { OnErr result (self.new ≡ self.old) }
        ensures noted { OnOk result (log.new ≡ noted log.old self.old) }
        ensures unnoted { OnErr result (log.new ≡ log.old) }
        ensures start { start log.new self.new ≡ start log.old self.old }
    {
        let laid = arranged_of(alloc, self, placeable)?;
        self.change(laid, log);
        Ok(())
    }
}

fn arranged_of(alloc: Global, layout: &Layout, placeable: &[Key]) -> Result<Layout, AllocError>
    requires { length placeable.now ≤ 100000 }
    ensures { IfOk result (λ laid. laid ≡ arranged layout.now placeable.now) }
{
    let mut laid = Growing::of(alloc, layout)?;
    lay(alloc, placeable, &mut laid)?;
    laid.settled(alloc)
}

// Lays the elements of these keys. Without memory some are laid.
fn lay(alloc: Global, placeable: &[Key], layout: &mut Growing) -> Result<(), AllocError>
    requires { length placeable.now ≤ 100000 }
    ensures { OnOk result (layout.new ≡ arranged layout.old placeable.now) }
{
    let mut siblings = Siblings::new(alloc);
    for key in placeable {
        lay_one(alloc, key, &mut siblings, layout)?;
    }
    Ok(())
}

// Lays one more element, by how many of its parent were seen before.
fn lay_one(
    alloc: Global,
    key: &Key,
    siblings: &mut Siblings,
    layout: &mut Growing,
) -> Result<(), AllocError>
    requires { seen_of siblings.old (parent_of key.now) < 100000 }
    ensures laid { OnOk result (layout.new ≡ placed layout.old key.now (grid (seen_of siblings.old (parent_of key.now)))) }
    ensures counted { OnOk result ((parent : Key) → seen_of siblings.new parent
        ≡ seen_of siblings.old parent + (if same_key (parent_of key.now) parent then 1 else 0)) }
{
    let number = siblings.see(alloc, key)?;
    layout.put(key.copy(alloc)?, grid(number))
}
