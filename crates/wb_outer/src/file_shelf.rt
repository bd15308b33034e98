ghost use Rattle.std.specs.Prelude.{◌≡◌, [], ◌++◌, ◌∷◌, None, IfOk, OnErr, true, false};
ghost use Rattle.wb_outer.specs.Faults.{counted};
ghost use Rattle.wb_outer.specs.Shelf.{Gives, has_failed};
ghost use Rattle.wb_outer.specs.Files.{no_file_told, IsDue, IsReadOf, IsJustOpened, files_told};

use crate::bytes::Bytes;
use crate::faults::raise;
use crate::files::{Files, Part, SystemFiles};
use crate::log::Log;
use crate::shelf;
use crate::shelf::{Call, FILE_LIMIT, Shelf, Taken};
use std::alloc::{AllocError, Global};
use std::marker::Model;

/// A shelf over files by path. What they hold it does not tell.
#[derive(Drop)]
pub struct FileShelf<F> {
    files: F,
    given: Log<Call>,
    faults: u64,
}

impl<F> Model for FileShelf<F> {
    ghost use Rattle.wb_outer.specs.Files.{FileShelfState};

    ghost Value = { FileShelfState F };

    ghost view = { λ s. record { files = s.files; given = s.given; faults = s.faults } };
}

impl FileShelf<SystemFiles> {
    /// The files of the system.
    pub fn new(rt: &HostRuntime) -> FileShelf<SystemFiles>
        ensures told { files_told result ≡ record { given = []; files = None; faults = 0 } }
        ensures files { ⟦<SystemFiles as Files>⟧.told result.files ≡ no_file_told }
    {
        FileShelf::over(SystemFiles::new(rt))
    }
}

impl<F: Files> FileShelf<F> {
    /// A shelf over these files.
    pub fn over(files: F) -> FileShelf<F>
        ensures { result ≡ record { files = files; given = []; faults = 0 } }
    {
        FileShelf {
            files,
            given: Log::new(),
            faults: 0,
        }
    }
}

// So many bytes are read at once.
const ROOM: usize = 8192;

// Reads the file that was just opened to its end, but no further than the limit needs.
fn read_open<F: Files>(alloc: Global, files: &mut F) -> Result<Taken, AllocError>
    requires { IsJustOpened (F.told files.old) }
    ensures opened { (F.told files.new).opened ≡ (F.told files.old).opened }
    ensures due { IfOk result (IsDue (F.told files.new)) }
{
    let mut bytes = Vec::new(alloc);
    let mut room = [0u8; ROOM];
    'reads: for _round in 0..u64::MAX {
        match files.read(&mut room) {
            Part::Bytes(count) if count > FILE_LIMIT - bytes.len() => return Ok(Taken::TooBig),
            Part::Bytes(count) => bytes.extend_from_slice(&room[..count])?,
            Part::End => return Ok(Taken::Bytes(Bytes::from_vec(bytes))),
            Part::Interrupted => {}
            Part::Failed => return Ok(Taken::Failed),
        }
    }
    Ok(Taken::Failed)
}

/// Opens the file of a name, reads it and closes it. A name that is no text is no path.
pub fn read_file<F: Files>(alloc: Global, files: &mut F, name: &[u8]) -> Result<Taken, AllocError>
    ensures { IfOk result (IsReadOf name.now (F.told files.old) (F.told files.new)) }
{
    let Ok(path) = std::str::from_utf8(name) else {
        return Ok(Taken::Failed);
    };
    if !files.open(path) {
        return Ok(Taken::Failed);
    }
    let taken = read_open(alloc, files);
    files.close();
    taken
}

impl<F: Files> Shelf for FileShelf<F> {
    ghost told = { files_told };

    fn take(&mut self, alloc: Global, name: &[u8]) -> Result<Taken, AllocError>
        ensures gives { IfOk result (Gives (files_told self.old) (files_told self.new) name.now) }
        ensures read { IfOk result (IsReadOf name.now (F.told self.old.files) (F.told self.new.files)) }
        ensures counted { IfOk result (λ taken. self.new.faults ≡ counted (has_failed taken) self.old.faults) }
        ensures memory { OnErr result (files_told self.new ≡ files_told self.old) }
    {
        let taken = read_file(alloc, &mut self.files, name)?;
        if matches!(taken, Taken::Failed) {
            self.faults = raise(self.faults);
        }
        Ok(shelf::note(&mut self.given, name, taken))
    }
}
