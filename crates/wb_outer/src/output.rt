ghost use Rattle.std.specs.Prelude.{◌≡◌, ◌<◌, length};
ghost use Rattle.wb_outer.specs.Output.{nothing_told, after_put, IsPart, PutOf};

use crate::log::Log;
use crate::steps::Steps;
use std::io;
use std::io::{ErrorKind, Write};

/// What a call that writes some of these bytes answers.
#[derive(Clone, Copy, Debug, PartialEq, Eq)]
pub enum Put {
    /// So many bytes, at least one, were taken.
    Took(usize),
    /// A signal came first. Nothing was taken, and the next call may take some.
    Interrupted,
    Failed,
}

// Labels of counts.
#[derive(Drop)]
pub struct Writes;

#[derive(Drop)]
pub struct Failures;

/// What an output tells, as contracts see it.
#[derive(Drop)]
pub struct OutputTold {
    /// All bytes that it took.
    pub took: Log<u8>,
    pub writes: Steps<Writes>,
    /// How many writes failed.
    pub failures: Steps<Failures>,
}

impl OutputTold {
    /// Nothing was written yet.
    pub fn new() -> OutputTold
        ensures { result ≡ nothing_told }
    {
        OutputTold {
            took: Log::new(),
            writes: Steps::new(),
            failures: Steps::new(),
        }
    }

    /// A write of these bytes answered so.
    pub fn note(&mut self, put: Put, bytes: &[u8])
        requires { IsPart put bytes.now }
        ensures { self.new ≡ after_put put bytes.now self.old }
    {
        self.writes.tick();
        match put {
            Put::Took(count) => self.took.note_all(&bytes[..count]),
            Put::Interrupted => {}
            Put::Failed => self.failures.tick(),
        }
    }
}

/// An output that takes bytes. It tells what each call was given and answered, so that contracts above tie what a
/// sink took to it.
pub trait Output {
    ghost use Rattle.wb_outer.specs.declared.output.OutputTold.{OutputTold};

    ghost told: { Self → OutputTold };

    /// Takes some of these bytes, from the front.
    fn put(&mut self, bytes: &[u8]) -> Put
        requires { 0 < length bytes.now }
        ensures part { IsPart result bytes.now }
        ensures told { told self.new ≡ after_put result bytes.now (told self.old) };
}

/// The standard output.
#[derive(Drop)]
pub struct SystemOutput {
    rt: HostRuntime,
    told: OutputTold,
}

impl SystemOutput {
    /// Nothing was written yet.
    pub fn new(rt: &HostRuntime) -> SystemOutput
        ensures { ⟦<SystemOutput as Output>⟧.told result ≡ nothing_told }
    {
        SystemOutput {
            rt: *rt,
            told: OutputTold::new(),
        }
    }
}

/// What one write comes to. One that takes nothing has failed, and an interrupted one is told apart.
pub fn put_part<W: Write>(to: &mut W, bytes: &[u8]) -> Put
    ensures part { IsPart result bytes.now }
    ensures known { PutOf (W.contents to.old) (W.contents to.new) bytes.now result }
{
    match to.write(bytes) {
        Ok(0) => Put::Failed,
        Ok(count) => Put::Took(count),
        Err(error) if error.kind() == ErrorKind::Interrupted => Put::Interrupted,
        Err(_) => Put::Failed,
    }
}

impl Output for SystemOutput {
    ghost told = { λ o. o.told };

    fn put(&mut self, bytes: &[u8]) -> Put {
        let put = put_part(&mut io::writer(&self.rt), bytes);
        self.told.note(put, bytes);
        put
    }
}
