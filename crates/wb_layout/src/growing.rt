ghost use Rattle.std.specs.Prelude.{◌≡◌, IfOk, OnOk, OnErr};
ghost use Rattle.std.specs.FinMap as map;
ghost use Rattle.wb_layout.specs.Positions.{IsInRange, placed};
ghost use Rattle.wb_layout.specs.invariants.Entries.{Ascend};

use crate::layout::Layout;
use std::alloc::{AllocError, Global};
use std::collections::BTreeMap;
use std::marker::Model;
use wb_base::Duplicate;
use wb_diagram::Key;

/// A layout while many elements are put somewhere, in any order.
#[derive(Drop)]
pub(crate) struct Growing {
    positions: BTreeMap<Key, (i64, i64)>,
}

impl Model for Growing {
    ghost use Rattle.std.specs.Coded.{codes};
    ghost use Rattle.std.specs.FinMap as map;
    ghost use Rattle.wb_layout.specs.Positions.{Positions};
    ghost use Rattle.wb_layout.specs.invariants.Entries.{AreInRange, Ascend};

    ghost Value = { Positions };

    ghost coded = { Prim.hlevel (codes, map.code) };

    ghost view = { λ l. map.from_sorted l.positions.entries };

    ghost invariant = { λ l. Ascend l.positions.entries × AreInRange l.positions.entries };
}

impl Growing {
    pub(crate) fn new(alloc: Global) -> Growing
        ensures { result ≡ map.empty }
    {
        Growing {
            positions: BTreeMap::new(alloc),
        }
    }

    /// The same positions, with memory of their own.
    pub(crate) fn of(alloc: Global, layout: &Layout) -> Result<Growing, AllocError>
        ensures { IfOk result (λ growing. growing ≡ layout.now) }
    {
        Ok(Growing {
            positions: copied(alloc, layout.entries())?,
        })
    }

    /// Puts an element somewhere.
    pub(crate) fn put(&mut self, key: Key, at: (i64, i64)) -> Result<(), AllocError>
        requires { IsInRange at }
        ensures ok { OnOk result (self.new ≡ placed self.old key at) }
        ensures err { OnErr result (self.new ≡ self.old) }
    {
        self.positions.insert(key, at)?;
        Ok(())
    }

    /// The layout that it has grown to.
    pub(crate) fn settled(self, alloc: Global) -> Result<Layout, AllocError>
        ensures { IfOk result (λ layout. layout ≡ self) }
    {
        Ok(Layout::from_entries(listed(alloc, self.positions)?))
    }
}

// The entries, as a tree.
fn copied(
    alloc: Global,
    entries: &[(Key, (i64, i64))],
) -> Result<BTreeMap<Key, (i64, i64)>, AllocError>
    requires { Ascend entries.now }
    ensures { IfOk result (λ copy. copy.entries ≡ entries.now) }
{
    let mut copy = BTreeMap::new(alloc);
    for entry in entries {
        copy.insert(entry.0.copy(alloc)?, entry.1)?;
    }
    Ok(copy)
}

// The entries of a tree, in order.
fn listed(
    alloc: Global,
    positions: BTreeMap<Key, (i64, i64)>,
) -> Result<Vec<(Key, (i64, i64))>, AllocError>
    ensures { IfOk result (λ list. list.items ≡ positions.entries) }
{
    let mut list = Vec::new(alloc);
    for entry in positions {
        list.push(entry)?;
    }
    Ok(list)
}
