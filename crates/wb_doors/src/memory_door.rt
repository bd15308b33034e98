ghost use Rattle.std.specs.Prelude.{◌≡◌, ◌<◌, ◌+◌, ◌++◌, [], None, Some, false, IfOk, length, vec_len};
ghost use Rattle.wb_outer.specs.Door.{Comes, Reads, Writes};
ghost use Rattle.wb_outer.specs.Faults.{plan_of, fails_now, after_call};
ghost use Rattle.wb_outer.specs.Pieces.{lines_of};
ghost use Rattle.wb_outer.specs.Sink.{IsPlanned, appended};
ghost use Rattle.wb_outer.specs.declared.door.Next.{Next};
ghost use Rattle.wb_doors.specs.MemoryDoors.{AreSent, TakesNext, GivesPiece, memory_told, sent_on, next_failed, read_failed, after_write_call};

use crate::coming::Coming;
use crate::visits::Visits;
use std::alloc::{AllocError, Global};
use std::marker::Model;
use wb_faults::FaultPlan;
use wb_outer::{Bytes, Door, Got, Next, Wrote};

/// Connections whose bytes stand in memory. It keeps what is written, and fails where it is told to.
pub struct MemoryDoor {
    // what is to come
    coming: Coming,
    last: Option<Next>,
    taken: Visits,
    // how many were taken
    count: usize,
    // what was written on each connection, those to come among them
    sent: Vec<Vec<u8>>,
    plan: FaultPlan,
}

impl Drop for MemoryDoor {
    fn drop(self) {
        let MemoryDoor {
            coming: _coming,
            last: _,
            taken: _taken,
            count: _,
            sent: _sent,
            plan: _plan,
        } = self;
    }
}

impl Model for MemoryDoor {
    ghost use Rattle.wb_doors.specs.MemoryDoors.{MemoryDoorState, IsKept};

    ghost Value = { MemoryDoorState };

    ghost view = { λ d. record { last = d.last; taken = d.taken; left = d.coming.left; waiting = d.coming.waiting; plan = d.plan } };

    ghost invariant = { λ d. IsKept d.coming d.last d.taken d.count d.sent.items };
}

// Room for what will be written on so many connections.
fn unsent(alloc: Global, count: usize) -> Result<Vec<Vec<u8>>, AllocError>
    ensures count { IfOk result (λ sent. vec_len sent ≡ count) }
    ensures unsent { IfOk result (λ sent. AreSent sent.items []) }
{
    let mut sent = Vec::new(alloc);
    for _made in 0..count {
        sent.push(Vec::new(alloc))?;
    }
    Ok(sent)
}

// Appends the piece, unless the call is to fail or there is no memory.
fn append(sent: &mut Vec<u8>, fails: bool, piece: &[u8]) -> Wrote
    ensures planned { result ≡ Wrote.Done → fails ≡ false }
    ensures bytes { sent.new.items ≡ sent.old.items ++ appended result piece.now }
{
    if fails {
        return Wrote::Failed;
    }
    match sent.extend_from_slice(piece) {
        Ok(()) => Wrote::Done,
        Err(_) => Wrote::Failed,
    }
}

impl MemoryDoor {
    /// A door of these connections, each the list of pieces that reads give. `failing` has the numbers, from 0 over all
    /// calls, of those that fail.
    pub fn new(
        alloc: Global,
        lines: Vec<Vec<Bytes>>,
        failing: Vec<u64>,
    ) -> Result<MemoryDoor, AllocError>
        ensures { IfOk result (λ door. door ≡ record { last = None; taken = []; left = []; waiting = lines_of lines.items; plan = plan_of failing.items }) }
    {
        let sent = unsent(alloc, lines.len())?;
        Ok(MemoryDoor {
            coming: Coming::new(alloc, lines),
            last: None,
            taken: Visits::new(),
            count: 0,
            sent,
            plan: FaultPlan::new(failing),
        })
    }

    /// How many connections there are, those to come among them.
    pub fn line_count(&self) -> usize
        ensures { result ≡ length self.now.taken + length self.now.waiting }
    {
        self.sent.len()
    }

    /// All that was written on a connection; nothing where it was not taken.
    pub fn sent(&self, line: usize) -> &[u8]
        requires { line < length self.now.taken + length self.now.waiting }
        ensures { result.now ≡ sent_on line self.now.taken }
    {
        self.sent[line].as_slice()
    }
}

impl Door for MemoryDoor {
    ghost told = { memory_told };

    fn next(&mut self) -> Next
        ensures comes { Comes (memory_told self.old) (memory_told self.new) result }
        ensures exact { TakesNext self.old self.new result }
        ensures planned { fails_now self.old.plan ≡ next_failed result }
        ensures counted { self.new.plan ≡ after_call (next_failed result) self.old.plan }
    {
        let fails = self.plan.fails_now();
        self.plan.count(fails);
        if fails {
            self.last = Some(Next::Failed);
            return Next::Failed;
        }
        if !self.coming.next() {
            self.last = Some(Next::Closed);
            return Next::Closed;
        }
        self.taken.came(Next::Line);
        self.count += 1;
        self.last = Some(Next::Line);
        Next::Line
    }

    fn read(&mut self, room: &mut [u8]) -> Got
        requires at_hand { self.old.last ≡ Some Next.Line }
        requires has_room { 0 < length room.old }
        ensures reads { Reads (memory_told self.old) (memory_told self.new) room.new result }
        ensures exact { GivesPiece self.old self.new room.new result }
        ensures planned { fails_now self.old.plan ≡ read_failed result }
        ensures counted { self.new.plan ≡ after_call (read_failed result) self.old.plan }
    {
        let fails = self.plan.fails_now();
        self.plan.count(fails);
        if fails {
            self.taken.mark();
            return Got::Failed;
        }
        let got = self.coming.read(room);
        if let Got::Bytes(count) = got {
            self.taken.read(&room[..count]);
        }
        got
    }

    fn write(&mut self, piece: &[u8]) -> Wrote
        requires { self.old.last ≡ Some Next.Line }
        ensures writes { Writes (memory_told self.old) (memory_told self.new) piece.now result }
        ensures planned { IsPlanned self.old.plan result }
        ensures after { self.new ≡ after_write_call result piece.now self.old }
    {
        let fails = self.plan.fails_now();
        let wrote = append(&mut self.sent[self.count - 1], fails, piece);
        self.plan.count(wrote == Wrote::Failed);
        match wrote {
            Wrote::Done => self.taken.write(piece),
            Wrote::Failed => self.taken.mark(),
        }
        wrote
    }
}
