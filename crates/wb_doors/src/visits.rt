ghost use Rattle.std.specs.Prelude.{◌≡◌, ◌++◌, ◌∷◌, []};
ghost use Rattle.wb_outer.specs.Door.{fresh, after_read, after_write, marked, change_at_hand, taken_after};

use std::marker::Model;
use wb_outer::{Log, Next};

// What happened at a door.
#[derive(Drop)]
enum Event {
    Came,
    Read(Log<u8>),
    Wrote(Log<u8>),
    Failed,
}

/// The connections that a door took, as contracts see them.
#[derive(Drop)]
pub struct Visits {
    events: Log<Event>,
}

impl Model for Visits {
    ghost use Rattle.std.specs.Prelude.{List, []};
    ghost use Rattle.wb_outer.specs.Door.{Connection};
    ghost use Rattle.wb_doors.specs.Visits.{happened};

    ghost Value = { List Connection };

    ghost view = { λ v. happened [] v.events };
}

impl Visits {
    pub fn new() -> Visits
        ensures { result ≡ [] }
    {
        Visits { events: Log::new() }
    }

    // One more was taken.
    #[tactic(auto, using(crate::proofs::Happenings::happened_last))]
    fn add(&mut self)
        ensures { self.new ≡ self.old ++ fresh ∷ [] }
    {
        self.events.note(&Event::Came);
    }

    /// A call for the next connection answered so.
    pub fn came(&mut self, next: Next)
        ensures { self.new ≡ taken_after next self.old }
    {
        match next {
            Next::Line => self.add(),
            Next::Closed | Next::Failed => {}
        }
    }

    /// These bytes were read on the last one.
    #[tactic(auto, using(crate::proofs::Happenings::happened_last))]
    pub fn read(&mut self, bytes: &[u8])
        ensures { self.new ≡ change_at_hand (after_read bytes.now) self.old }
    {
        self.events.note(&Event::Read(Log::of(bytes)));
    }

    /// These bytes were written on the last one.
    #[tactic(auto, using(crate::proofs::Happenings::happened_last))]
    pub fn write(&mut self, bytes: &[u8])
        ensures { self.new ≡ change_at_hand (after_write bytes.now) self.old }
    {
        self.events.note(&Event::Wrote(Log::of(bytes)));
    }

    /// A call on the last one failed.
    #[tactic(auto, using(crate::proofs::Happenings::happened_last))]
    pub fn mark(&mut self)
        ensures { self.new ≡ change_at_hand marked self.old }
    {
        self.events.note(&Event::Failed);
    }
}
