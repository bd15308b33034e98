ghost use Rattle.std.specs.Prelude.{◌≡◌, ◌++◌, ◌∷◌, []};
ghost use Rattle.wb_outer.specs.Sink.{Receives, sure_told};

use crate::log::Log;
use crate::sink::{Sink, Wrote};
use std::marker::Model;

/// A sink that drops what is written, and never fails. Contracts see what it took.
#[derive(Drop)]
pub struct SureSink {
    handed: Log<Log<u8>>,
    took: Log<u8>,
}

impl Model for SureSink {
    ghost use Rattle.wb_outer.specs.Sink.{SureSinkState};

    ghost Value = { SureSinkState };

    ghost view = { λ s. record { handed = s.handed; took = s.took } };
}

impl SureSink {
    pub fn new() -> SureSink
        ensures { result ≡ record { handed = []; took = [] } }
    {
        SureSink {
            handed: Log::new(),
            took: Log::new(),
        }
    }
}

impl Sink for SureSink {
    ghost told = { sure_told };

    fn write(&mut self, piece: &[u8]) -> Wrote
        ensures receives { Receives (sure_told self.old) (sure_told self.new) piece.now result }
        ensures done { result ≡ Wrote.Done }
    {
        self.handed.note(&Log::of(piece));
        self.took.note_all(piece);
        Wrote::Done
    }
}
