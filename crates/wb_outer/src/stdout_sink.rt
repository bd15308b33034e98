ghost use Rattle.std.specs.Prelude.{◌≡◌, []};
ghost use Rattle.wb_outer.specs.Faults.{counted};
ghost use Rattle.wb_outer.specs.Sink.{Receives, has_failed};
ghost use Rattle.wb_outer.specs.Output.{nothing_told, TakesWhole, HasCause, output_told};

use crate::faults::raise;
use crate::log::Log;
use crate::output::{Output, Put, SystemOutput};
use crate::sink::{Sink, Wrote};
use std::marker::Model;

/// A sink over an output.
#[derive(Drop)]
pub struct StdoutSink<O> {
    output: O,
    handed: Log<Log<u8>>,
    faults: u64,
}

impl<O> Model for StdoutSink<O> {
    ghost use Rattle.wb_outer.specs.Output.{OutputSinkState};

    ghost Value = { OutputSinkState O };

    ghost view = { λ s. record { output = s.output; handed = s.handed; faults = s.faults } };
}

impl StdoutSink<SystemOutput> {
    /// The standard output.
    pub fn new(rt: &HostRuntime) -> StdoutSink<SystemOutput>
        ensures told { output_told ⟦<SystemOutput as Output>⟧.told result ≡ record { handed = []; took = []; faults = 0 } }
        ensures output { ⟦<SystemOutput as Output>⟧.told result.output ≡ nothing_told }
    {
        StdoutSink::over(SystemOutput::new(rt))
    }
}

impl<O: Output> StdoutSink<O> {
    /// A sink over this output.
    pub fn over(output: O) -> StdoutSink<O>
        ensures { result ≡ record { output = output; handed = []; faults = 0 } }
    {
        StdoutSink {
            output,
            handed: Log::new(),
            faults: 0,
        }
    }
}

/// Writes the whole piece, in as many writes as it takes. After a failure a front of it was written.
pub fn write_whole<O: Output>(to: &mut O, piece: &[u8]) -> Wrote
    ensures { TakesWhole (O.told to.old) (O.told to.new) piece.now result }
{
    let mut written = 0;
    'writes: for _round in 0..u64::MAX {
        if written >= piece.len() {
            return Wrote::Done;
        }
        match to.put(&piece[written..]) {
            Put::Took(count) => written += count,
            Put::Interrupted => {}
            Put::Failed => return Wrote::Failed,
        }
    }
    Wrote::Failed
}

impl<O: Output> Sink for StdoutSink<O> {
    ghost told = { output_told O.told };

    fn write(&mut self, piece: &[u8]) -> Wrote
        ensures receives { Receives (output_told O.told self.old) (output_told O.told self.new) piece.now result }
        ensures cause { result ≡ Wrote.Failed → HasCause (O.told self.old.output) (O.told self.new.output) }
        ensures counted { self.new.faults ≡ counted (has_failed result) self.old.faults }
    {
        self.handed.note(&Log::of(piece));
        let wrote = write_whole(&mut self.output, piece);
        if wrote == Wrote::Failed {
            self.faults = raise(self.faults);
        }
        wrote
    }
}
