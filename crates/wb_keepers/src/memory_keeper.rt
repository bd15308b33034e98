ghost use Rattle.std.specs.Prelude.{◌≡◌, IfOk, OnOk, OnErr};
ghost use Rattle.std.specs.List.Sorted.{IsPermutation};
ghost use Rattle.wb_outer.specs.Faults.{plan_of, fails_now, after_call};
ghost use Rattle.wb_outer.specs.Keeper.{IsAscending, Loads, Commits};
ghost use Rattle.wb_keepers.specs.MemoryKeepers.{IsPlanned, memory_told, changed_where, answer_of, after_load, after_commit};

use crate::changes::{after_changes, sorted};
use std::alloc::{AllocError, Global};
use std::marker::Model;
use wb_base::{Duplicate, List};
use wb_faults::FaultPlan;
use wb_outer::{Committed, Keeper, Loaded, Row, RowChange};

/// Rows in memory, and which calls fail.
#[derive(Debug, Drop)]
pub struct MemoryKeeper {
    rows: List<Row>,
    plan: FaultPlan,
}

impl Model for MemoryKeeper {
    ghost use Rattle.wb_outer.specs.Keeper.{IsAscending};
    ghost use Rattle.wb_keepers.specs.MemoryKeepers.{MemoryKeeperState};

    ghost Value = { MemoryKeeperState };

    ghost view = { λ k. record { rows = k.rows; plan = k.plan } };

    ghost invariant = { λ k. IsAscending k.rows };
}

// All changes are made, unless the call is to fail or there is no memory.
fn commit_to(
    alloc: Global,
    rows: &mut List<Row>,
    plan: &FaultPlan,
    changes: &[RowChange],
) -> Committed
    requires { IsAscending rows.old }
    ensures planned { IsPlanned plan.now result }
    ensures rows { rows.new ≡ changed_where result changes.now rows.old }
    ensures ascending { IsAscending rows.new }
{
    if plan.fails_now() {
        return Committed::Failed;
    }
    match after_changes(alloc, &*rows, changes) {
        Ok(changed) => {
            *rows = changed;
            Committed::Done
        }
        Err(_) => Committed::NoMemory,
    }
}

impl MemoryKeeper {
    /// A keeper of these rows. `failing` has the numbers, from 0 over all calls, of those that fail.
    pub fn new(
        _alloc: Global,
        rows: Vec<Row>,
        failing: Vec<u64>,
    ) -> Result<MemoryKeeper, AllocError>
        ensures all { IfOk result (λ keeper. IsPermutation rows.items keeper.rows) }
        ensures ascending { IfOk result (λ keeper. IsAscending keeper.rows) }
        ensures plan { IfOk result (λ keeper. keeper.plan ≡ plan_of failing.items) }
    {
        Ok(MemoryKeeper {
            rows: List::from_vec(sorted(rows)),
            plan: FaultPlan::new(failing),
        })
    }

    /// The rows, ascending by key.
    pub fn rows(&self) -> &[Row]
        ensures { result.now ≡ self.now.rows }
    {
        self.rows.as_slice()
    }

    // The answer to a call at hand, which is not counted yet.
    fn answer(&self, alloc: Global) -> Result<Loaded, AllocError>
        ensures { IfOk result (λ loaded. loaded ≡ answer_of self.now) }
    {
        if self.plan.fails_now() {
            return Ok(Loaded::Failed);
        }
        Ok(Loaded::Rows(self.rows.copy(alloc)?))
    }
}

impl Keeper for MemoryKeeper {
    ghost told = { memory_told };

    fn load(&mut self, alloc: Global) -> Result<Loaded, AllocError>
        ensures loads { IfOk result (Loads (memory_told self.old) (memory_told self.new)) }
        ensures answer { IfOk result (λ loaded. loaded ≡ answer_of self.old) }
        ensures after { OnOk result (self.new ≡ after_load self.old) }
        ensures ascending { IsAscending self.old.rows }
        ensures memory { OnErr result (self.new ≡ self.old) }
    {
        let loaded = self.answer(alloc)?;
        self.plan.count(matches!(loaded, Loaded::Failed));
        Ok(loaded)
    }

    fn commit(&mut self, alloc: Global, changes: &[RowChange]) -> Committed
        ensures commits { Commits (memory_told self.old) (memory_told self.new) changes.now result }
        ensures planned { IsPlanned self.old.plan result }
        ensures after { self.new ≡ after_commit result changes.now self.old }
    {
        let committed = commit_to(alloc, &mut self.rows, &self.plan, changes);
        match committed {
            Committed::Done => self.plan.count(false),
            Committed::Failed => self.plan.count(true),
            Committed::NoMemory => {}
        }
        committed
    }
}
