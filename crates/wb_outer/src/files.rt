ghost use Rattle.std.specs.Prelude.{◌≡◌, ◌<◌, length};
ghost use Rattle.wb_outer.specs.Files.{no_file_told, after_open, after_part, FitsPart, PartOf};

use crate::log::Log;
use crate::steps::Steps;
use std::fs;
use std::fs::File;
use std::io::{ErrorKind, Read};

/// What a call for the next bytes of an open file answers.
#[derive(Clone, Copy, Debug, PartialEq, Eq)]
pub enum Part {
    /// So many bytes, at least one, stand at the front of the room.
    Bytes(usize),
    /// The file is at its end.
    End,
    /// A signal came first. Nothing was read, and the next call may read.
    Interrupted,
    Failed,
}

/// What files tell, as contracts see it.
#[derive(Drop)]
pub struct FilesTold {
    /// Each path that was to be opened.
    pub opened: Log<Log<u8>>,
    /// All bytes that the file opened last gave.
    pub given: Log<u8>,
    /// How many reads of it were made.
    pub reads: Steps<Part>,
    /// It answered that it is at its end.
    pub has_ended: bool,
    /// It could not be opened, or a read of it failed.
    pub has_failed: bool,
}

impl FilesTold {
    /// No file was opened yet.
    pub fn new() -> FilesTold
        ensures { result ≡ no_file_told }
    {
        FilesTold {
            opened: Log::new(),
            given: Log::new(),
            reads: Steps::new(),
            has_ended: false,
            has_failed: false,
        }
    }

    /// The file of a path was to be opened, and was or not.
    pub fn note_open(&mut self, path: &str, is_open: bool)
        ensures { self.new ≡ after_open path.now is_open self.old }
    {
        self.opened.note(&Log::of(path.as_bytes()));
        self.given = Log::new();
        self.reads = Steps::new();
        self.has_ended = false;
        self.has_failed = !is_open;
    }

    /// A read answered so.
    pub fn note_read(&mut self, part: Part, room: &[u8])
        requires { FitsPart part room.now }
        ensures { self.new ≡ after_part part room.now self.old }
    {
        self.reads.tick();
        match part {
            Part::Bytes(count) => self.given.note_all(&room[..count]),
            Part::End => self.has_ended = true,
            Part::Interrupted => {}
            Part::Failed => self.has_failed = true,
        }
    }
}

/// Files that are opened by path and read, one at a time. They tell what each call was given and answered, so that
/// contracts above tie what a shelf gives to it.
pub trait Files {
    ghost use Rattle.wb_outer.specs.declared.files.FilesTold.{FilesTold};

    ghost told: { Self → FilesTold };

    /// Opens the file of a path, in place of the one that was open. Says whether it could.
    fn open(&mut self, path: &str) -> bool
        ensures { told self.new ≡ after_open path.now result (told self.old) };

    /// The next bytes of the open file, into the front of the room.
    fn read(&mut self, room: &mut [u8]) -> Part
        requires { 0 < length room.old }
        ensures fits { FitsPart result room.new }
        ensures told { told self.new ≡ after_part result room.new (told self.old) };

    /// Closes the open file.
    fn close(&mut self)
        ensures { told self.new ≡ told self.old };
}

/// The files of the system.
#[derive(Drop)]
pub struct SystemFiles {
    rt: HostRuntime,
    file: Option<File>,
    told: FilesTold,
}

impl SystemFiles {
    /// No file is open yet.
    pub fn new(rt: &HostRuntime) -> SystemFiles
        ensures { ⟦<SystemFiles as Files>⟧.told result ≡ no_file_told }
    {
        SystemFiles {
            rt: *rt,
            file: None,
            told: FilesTold::new(),
        }
    }
}

/// What one read comes to. An interrupted one is told apart from one that failed.
pub fn read_part<R: Read>(from: &mut R, room: &mut [u8]) -> Part
    requires { 0 < length room.old }
    ensures fits { FitsPart result room.new }
    ensures known { PartOf (R.remaining from.old) (R.remaining from.new) room.new result }
{
    match from.read(room) {
        Ok(0) => Part::End,
        Ok(count) => Part::Bytes(count),
        Err(error) if error.kind() == ErrorKind::Interrupted => Part::Interrupted,
        Err(_) => Part::Failed,
    }
}

// A read where no file is open fails.
fn read_open(file: &mut Option<File>, room: &mut [u8]) -> Part
    requires { 0 < length room.old }
    ensures { FitsPart result room.new }
{
    match file {
        Some(file) => read_part(file, room),
        None => Part::Failed,
    }
}

impl Files for SystemFiles {
    ghost told = { λ f. f.told };

    fn open(&mut self, path: &str) -> bool {
        self.file = fs::open(&self.rt, path).ok();
        let is_open = self.file.is_some();
        self.told.note_open(path, is_open);
        is_open
    }

    fn read(&mut self, room: &mut [u8]) -> Part {
        let part = read_open(&mut self.file, room);
        self.told.note_read(part, room);
        part
    }

    fn close(&mut self) {
        self.file = None;
    }
}
