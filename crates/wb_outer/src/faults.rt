ghost use Rattle.std.specs.Prelude.{◌≡◌, ◌≤◌};
ghost use Rattle.wb_outer.specs.Faults.{raised, plan_of, fails_now, after_call};

use wb_base::List;

/// The next value of a count, which stands still at the end of its type.
pub(crate) fn raise(count: u64) -> u64
    ensures { result ≡ raised count }
{
    count.saturating_add(1)
}

/// Which calls of an object in memory fail, how many were made, and how many of them failed.
#[derive(Debug, Drop)]
pub struct FaultPlan {
    /// Numbers of calls, from 0 over all calls of the object.
    pub failing: List<u64>,
    pub calls: u64,
    pub faults: u64,
}

impl FaultPlan {
    pub fn new(failing: Vec<u64>) -> FaultPlan
        ensures { result ≡ plan_of failing.items }
    {
        FaultPlan {
            failing: List::from_vec(failing),
            calls: 0,
            faults: 0,
        }
    }

    /// Is the call at hand to fail?
    pub fn fails_now(&self) -> bool
        ensures { result ≡ fails_now self.now }
    {
        let calls = self.calls;
        self.failing.as_slice().iter().any(|call| *call == calls)
    }

    /// Counts a call that was made.
    pub fn count(&mut self, has_failed: bool)
        ensures counted { self.new ≡ after_call has_failed self.old }
        ensures later { self.old.faults ≤ self.new.faults }
    {
        self.calls = raise(self.calls);
        if has_failed {
            self.faults = raise(self.faults);
        }
    }
}
