ghost use Rattle.std.specs.Prelude.{◌≡◌, [], IfOk, OnOk, OnErr};
ghost use Rattle.wb_outer.specs.Faults.{plan_of};
ghost use Rattle.wb_outer.specs.Shelf.{Gives, memory_told, names_of, answer_of, after_take};

use crate::bytes::Bytes;
use crate::faults::FaultPlan;
use crate::log::Log;
use crate::shelf;
use crate::shelf::{Call, Shelf, Taken};
use std::alloc::{AllocError, Global};
use std::marker::Model;
use wb_base::List;

/// A shelf whose files stand in memory. Of files with one name the first counts.
pub struct MemoryShelf {
    files: List<(Bytes, Bytes)>,
    asked: List<Bytes>,
    given: Log<Call>,
    plan: FaultPlan,
}

impl Drop for MemoryShelf {
    fn drop(self) {
        let MemoryShelf {
            files: _files,
            asked: _asked,
            given: _given,
            plan: _plan,
        } = self;
    }
}

impl Model for MemoryShelf {
    ghost use Rattle.std.specs.Prelude.{◌≡◌};
    ghost use Rattle.wb_outer.specs.Shelf.{MemoryShelfState, names_of};

    ghost Value = { MemoryShelfState };

    ghost view = { λ s. record { files = s.files; given = s.given; plan = s.plan } };

    ghost invariant = { λ s. s.asked ≡ names_of s.given };
}

impl MemoryShelf {
    /// A shelf of these files, each a name and its bytes. `failing` has the numbers, from 0, of the calls that fail.
    pub fn new(
        alloc: Global,
        files: Vec<(Bytes, Bytes)>,
        failing: Vec<u64>,
    ) -> Result<MemoryShelf, AllocError>
        ensures { IfOk result (λ shelf. shelf ≡ record { files = files.items; given = []; plan = plan_of failing.items }) }
    {
        Ok(MemoryShelf {
            files: List::from_vec(files),
            asked: List::new(alloc),
            given: Log::new(),
            plan: FaultPlan::new(failing),
        })
    }

    /// The names that were asked, in order.
    pub fn asked(&self) -> &[Bytes]
        ensures { result.now ≡ names_of self.now.given }
    {
        self.asked.as_slice()
    }

    // The answer to a call at hand, which is not counted yet.
    fn answer(&self, alloc: Global, name: &[u8]) -> Result<Taken, AllocError>
        ensures { IfOk result (λ taken. taken ≡ answer_of self.now name.now) }
    {
        if self.plan.fails_now() {
            return Ok(Taken::Failed);
        }
        match shelf::file_named(self.files.as_slice(), name) {
            Some(bytes) => shelf::copy_of(alloc, bytes.as_slice()),
            None => Ok(Taken::Failed),
        }
    }
}

impl Shelf for MemoryShelf {
    ghost told = { memory_told };

    fn take(&mut self, alloc: Global, name: &[u8]) -> Result<Taken, AllocError>
        ensures gives { IfOk result (Gives (memory_told self.old) (memory_told self.new) name.now) }
        ensures answer { IfOk result (λ answer. answer ≡ answer_of self.old name.now) }
        ensures after { OnOk result (self.new ≡ after_take self.old name.now) }
        ensures memory { OnErr result (self.new ≡ self.old) }
    {
        let taken = self.answer(alloc, name)?;
        self.asked.push(Bytes::from_slice(alloc, name)?)?;
        let taken = shelf::note(&mut self.given, name, taken);
        self.plan.count(matches!(taken, Taken::Failed));
        Ok(taken)
    }
}
