ghost use Rattle.wb_outer.specs.Sink.{SinkTold, Receives};

/// What a call that writes answers.
#[derive(Clone, Copy, Debug, PartialEq, Eq)]
pub enum Wrote {
    Done,
    Failed,
}

/// Where the program prints. A sink tells each piece that it was handed, and all that it took.
pub trait Sink {
    ghost told: { Self → SinkTold };

    /// Appends the whole piece. After a failure a front of the piece was appended.
    fn write(&mut self, piece: &[u8]) -> Wrote
        ensures { Receives (told self.old) (told self.new) piece.now result };
}
