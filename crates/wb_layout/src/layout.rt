ghost use Rattle.std.specs.Prelude.{◌≡◌, slice_get, option_copied, IfOk, IfSome, OnOk, OnErr};
ghost use Rattle.std.specs.FinMap as map;
ghost use Rattle.wb_diagram.specs.declared.keys.Key.{Key};
ghost use Rattle.wb_layout.specs.Orders.{key_cmp};
ghost use Rattle.wb_layout.specs.Positions.{IsInRange, placed};
ghost use Rattle.wb_layout.specs.Logs.{noted, start};
ghost use Rattle.wb_layout.specs.invariants.Entries.{AreInRange, Ascend};

use crate::layout_log::LayoutLog;
use crate::search::{entry_at, found, put};
use std::alloc::{AllocError, Global};
use std::marker::Model;
use std::mem::replace;
use wb_base::Duplicate;
use wb_diagram::Key;

/// The positions that elements were given, by their keys. A position is right and down from the parent.
#[derive(Drop)]
pub struct Layout {
    // ascending by key, so that a key is found by halving
    positions: Vec<(Key, (i64, i64))>,
}

impl Model for Layout {
    ghost use Rattle.std.specs.Coded.{codes};
    ghost use Rattle.std.specs.FinMap as map;
    ghost use Rattle.wb_layout.specs.Positions.{Positions};
    ghost use Rattle.wb_layout.specs.invariants.Entries.{AreInRange, Ascend};

    ghost Value = { Positions };

    ghost coded = { Prim.hlevel (codes, map.code) };

    ghost view = { λ l. map.from_sorted l.positions.items };

    ghost invariant = { λ l. Ascend l.positions.items × AreInRange l.positions.items };
}

impl Layout {
    /// No element has a position.
    pub fn new(alloc: Global) -> Layout
        ensures { result ≡ map.empty }
    {
        Layout {
            positions: Vec::new(alloc),
        }
    }

    /// The layout of these entries.
    pub(crate) fn from_entries(entries: Vec<(Key, (i64, i64))>) -> Layout
        requires ascend { Ascend entries.items }
        requires in_range { AreInRange entries.items }
        ensures { result ≡ map.from_sorted entries.items }
    {
        Layout { positions: entries }
    }

    /// The keys with their positions, ascending.
    pub(crate) fn entries(&self) -> &[(Key, (i64, i64))]
        ensures shown { map.from_sorted result.now ≡ self.now }
        ensures ascend { Ascend result.now }
        ensures in_range { AreInRange result.now }
    {
        self.positions.as_slice()
    }

    /// The position of an element; `None` where it was given none.
    pub fn at(&self, key: &Key) -> Option<(i64, i64)>
        ensures position { result ≡ map.get self.now key.now }
        ensures in_range { IfSome result IsInRange }
    {
        found(self.positions.as_slice(), key)
    }

    /// The i-th key that has a position, from 0, ascending by the list of its pairs.
    pub fn key(&self, i: usize) -> Option<&Key>
        ensures { option_copied result ≡ slice_get (map.keys self.now) i }
    {
        match entry_at(self.positions.as_slice(), i) {
            Some(entry) => Some(&entry.0),
            None => None,
        }
    }

    /// Puts an element somewhere.
    pub fn place(
        &mut self,
        alloc: Global,
        key: Key,
        x: i64,
        y: i64,
        log: &mut LayoutLog,
    ) -> Result<(), AllocError>
        requires { IsInRange (x, y) }
        ensures ok { OnOk result (self.new ≡ placed self.old key (x, y)) }
        ensures err { OnErr result (self.new ≡ self.old) }
        ensures noted { OnOk result (log.new ≡ noted log.old self.old) }
        ensures unnoted { OnErr result (log.new ≡ log.old) }
        ensures start { start log.new self.new ≡ start log.old self.old }
    {
        if log.has_start() {
            return self.put(key, (x, y));
        }
        let mut changed = self.copy(alloc)?;
        changed.put(key, (x, y))?;
        self.change(changed, log);
        Ok(())
    }

    fn put(&mut self, key: Key, at: (i64, i64)) -> Result<(), AllocError>
        requires { IsInRange at }
        ensures ok { OnOk result (self.new ≡ placed self.old key at) }
        ensures err { OnErr result (self.new ≡ self.old) }
    {
        put(&mut self.positions, key, at)?;
        Ok(())
    }

    /// Other positions stand in place of these, which go into the log unless it has its start.
    pub(crate) fn change(&mut self, positions: Layout, log: &mut LayoutLog)
        ensures new { self.new ≡ positions }
        ensures noted { log.new ≡ noted log.old self.old }
    {
        log.note(replace(self, positions));
    }

    /// Goes back to the start of the log. The answer is a log that leads forward again.
    pub fn reverse(&mut self, log: LayoutLog) -> LayoutLog
        ensures back { self.new ≡ start log self.old }
        ensures forward { start result self.new ≡ self.old }
    {
        match log.into_start() {
            Some(start) => LayoutLog::from(Some(replace(self, start))),
            None => LayoutLog::new(),
        }
    }

    /// A law: what has a position has one in range.
    pub fn keeps_in_range(&self)
        ensures { (key : Key) → IfSome (map.get self.now key) IsInRange }
    {
        let _ = &self.positions;
    }
}

impl Duplicate for Layout {
    fn copy(&self, alloc: Global) -> Result<Layout, AllocError> {
        Ok(Layout {
            positions: copied(alloc, self.positions.as_slice())?,
        })
    }
}

// The same entries, with memory of their own.
fn copied(
    alloc: Global,
    entries: &[(Key, (i64, i64))],
) -> Result<Vec<(Key, (i64, i64))>, AllocError>
    ensures { IfOk result (λ copies. copies.items ≡ entries.now) }
{
    let mut copies = Vec::new(alloc);
    for entry in entries {
        copies.push((entry.0.copy(alloc)?, entry.1))?;
    }
    Ok(copies)
}
