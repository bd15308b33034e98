ghost use Rattle.std.specs.Prelude.{◌≡◌, ◌++◌, [], IfOk};
ghost use Rattle.wb_outer.specs.Faults.{plan_of};
ghost use Rattle.wb_outer.specs.Sink.{Receives, IsPlanned, memory_told, appended, after_write};

use crate::faults::FaultPlan;
use crate::log::Log;
use crate::sink::{Sink, Wrote};
use std::alloc::{AllocError, Global};
use std::marker::Model;

/// A sink that keeps what is written, and fails where it is told to.
pub struct MemorySink {
    handed: Log<Log<u8>>,
    bytes: Vec<u8>,
    plan: FaultPlan,
}

impl Drop for MemorySink {
    fn drop(self) {
        let MemorySink {
            handed: _handed,
            bytes: _bytes,
            plan: _plan,
        } = self;
    }
}

impl Model for MemorySink {
    ghost use Rattle.wb_outer.specs.Sink.{MemorySinkState};

    ghost Value = { MemorySinkState };

    ghost view = { λ s. record { handed = s.handed; bytes = s.bytes.items; plan = s.plan } };
}

impl MemorySink {
    /// An empty sink. `failing` has the numbers, from 0, of the calls that fail.
    pub fn new(alloc: Global, failing: Vec<u64>) -> Result<MemorySink, AllocError>
        ensures { IfOk result (λ sink. sink ≡ record { handed = []; bytes = []; plan = plan_of failing.items }) }
    {
        Ok(MemorySink {
            handed: Log::new(),
            bytes: Vec::new(alloc),
            plan: FaultPlan::new(failing),
        })
    }

    /// All that was written.
    pub fn sent(&self) -> &[u8]
        ensures { result.now ≡ self.now.bytes }
    {
        self.bytes.as_slice()
    }
}

// Appends the piece, unless the call is to fail or there is no memory.
fn append(bytes: &mut Vec<u8>, plan: &FaultPlan, piece: &[u8]) -> Wrote
    ensures planned { IsPlanned plan.now result }
    ensures bytes { bytes.new.items ≡ bytes.old.items ++ appended result piece.now }
{
    if plan.fails_now() {
        return Wrote::Failed;
    }
    match bytes.extend_from_slice(piece) {
        Ok(()) => Wrote::Done,
        Err(_) => Wrote::Failed,
    }
}

impl Sink for MemorySink {
    ghost told = { memory_told };

    fn write(&mut self, piece: &[u8]) -> Wrote
        ensures receives { Receives (memory_told self.old) (memory_told self.new) piece.now result }
        ensures planned { IsPlanned self.old.plan result }
        ensures after { self.new ≡ after_write result piece.now self.old }
    {
        self.handed.note(&Log::of(piece));
        let wrote = append(&mut self.bytes, &self.plan, piece);
        self.plan.count(wrote == Wrote::Failed);
        wrote
    }
}
