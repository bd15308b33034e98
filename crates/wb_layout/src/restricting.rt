ghost use Rattle.std.specs.Prelude.{◌≡◌, IfOk, OnOk, OnErr};
ghost use Rattle.std.specs.FinMap as map;
ghost use Rattle.wb_diagram.specs.declared.keys.Key.{Key};
ghost use Rattle.wb_layout.specs.Logs.{noted, start};
ghost use Rattle.wb_layout.specs.Positions.{restricted};
ghost use Rattle.wb_layout.specs.invariants.Kept.{kept_too};

use crate::growing::Growing;
use crate::layout::Layout;
use crate::layout_log::LayoutLog;
use std::alloc::{AllocError, Global};
use wb_base::Duplicate;
use wb_diagram::Key;

impl Layout {
    /// Only the elements of these keys keep their positions.
    pub fn restrict(
        &mut self,
        alloc: Global,
        declared: &[Key],
        log: &mut LayoutLog,
    ) -> Result<(), AllocError>
        ensures ok { OnOk result (self.new ≡ restricted self.old declared.now) }
        ensures err { OnErr result (self.new ≡ self.old) }
        ensures noted { OnOk result (log.new ≡ noted log.old self.old) }
        ensures unnoted { OnErr result (log.new ≡ log.old) }
        ensures start { start log.new self.new ≡ start log.old self.old }
    {
        let kept = restricted_to(alloc, self, declared)?;
        self.change(kept, log);
        Ok(())
    }
}

// The positions of these keys alone.
fn restricted_to(alloc: Global, layout: &Layout, declared: &[Key]) -> Result<Layout, AllocError>
    ensures { IfOk result (λ kept. kept ≡ restricted layout.now declared.now) }
{
    let mut kept = Growing::new(alloc);
    for key in declared {
        keep(alloc, layout, key, &mut kept)?;
    }
    kept.settled(alloc)
}

// One more element keeps its position, if it has one.
fn keep(alloc: Global, layout: &Layout, key: &Key, kept: &mut Growing) -> Result<(), AllocError>
    ensures { OnOk result ((other : Key) → map.get kept.new other ≡ kept_too key.now (map.get layout.now key.now) (map.get kept.old other) other) }
{
    if let Some(at) = layout.at(key) {
        kept.put(key.copy(alloc)?, at)?;
    }
    Ok(())
}
