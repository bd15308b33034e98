ghost use Rattle.std.specs.Prelude.{◌≡◌, ◌≤◌};
ghost use Rattle.wb_outer.specs.Faults.{plan_of, fails_now, after_call};

use crate::counts::raise;
use std::marker::Model;
use wb_base::List;

/// Which calls of an object in memory fail, how many were made, and how many of them failed.
#[derive(Debug, Drop)]
pub struct FaultPlan {
    // numbers of calls, from 0 over all calls of the object
    failing: List<u64>,
    calls: u64,
    faults: u64,
}

impl Model for FaultPlan {
    ghost use Rattle.wb_outer.specs.declared.faults.FaultPlan.{FaultPlan as Plan};

    ghost Value = { Plan };

    ghost view = { λ p. record { failing = p.failing; calls = p.calls; faults = p.faults } };
}

impl FaultPlan {
    /// A plan by which the calls of these numbers fail, and no call was made yet.
    pub fn new(failing: Vec<u64>) -> FaultPlan
        ensures { result ≡ plan_of failing.items }
    {
        FaultPlan {
            failing: List::from_vec(failing),
            calls: 0,
            faults: 0,
        }
    }

    /// Is the call at hand to fail?
    pub fn fails_now(&self) -> bool
        ensures { result ≡ fails_now self.now }
    {
        let calls = self.calls;
        self.failing.as_slice().iter().any(|call| *call == calls)
    }

    /// Counts a call that was made.
    pub fn count(&mut self, has_failed: bool)
        ensures counted { self.new ≡ after_call has_failed self.old }
        ensures later { self.old.faults ≤ self.new.faults }
    {
        self.calls = raise(self.calls);
        if has_failed {
            self.faults = raise(self.faults);
        }
    }
}
