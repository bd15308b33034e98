ghost use Rattle.std.specs.Prelude.{◌≡◌, [], IfOk, OnOk, OnErr};
ghost use Rattle.wb_outer.specs.Shelf.{Gives, sure_told, sure_answer, after_sure_take};

use crate::bytes::Bytes;
use crate::log::Log;
use crate::shelf;
use crate::shelf::{Call, Shelf, Taken};
use std::alloc::{AllocError, Global};
use std::marker::Model;
use wb_base::List;

/// A shelf in memory whose calls never fail: an empty file stands under every name that it was not given.
#[derive(Drop)]
pub struct SureShelf {
    files: List<(Bytes, Bytes)>,
    given: Log<Call>,
}

impl Model for SureShelf {
    ghost use Rattle.wb_outer.specs.Shelf.{SureShelfState};

    ghost Value = { SureShelfState };

    ghost view = { λ s. record { files = s.files; given = s.given } };
}

impl SureShelf {
    /// A shelf of these files, each a name and its bytes. Of files with one name the first counts.
    pub fn new(files: Vec<(Bytes, Bytes)>) -> SureShelf
        ensures { result ≡ record { files = files.items; given = [] } }
    {
        SureShelf {
            files: List::from_vec(files),
            given: Log::new(),
        }
    }

    fn answer(&self, alloc: Global, name: &[u8]) -> Result<Taken, AllocError>
        ensures { IfOk result (λ taken. taken ≡ sure_answer self.now name.now) }
    {
        match shelf::file_named(self.files.as_slice(), name) {
            Some(bytes) => shelf::copy_of(alloc, bytes.as_slice()),
            None => shelf::copy_of(alloc, &[]),
        }
    }
}

impl Shelf for SureShelf {
    ghost told = { sure_told };

    fn take(&mut self, alloc: Global, name: &[u8]) -> Result<Taken, AllocError>
        ensures gives { IfOk result (Gives (sure_told self.old) (sure_told self.new) name.now) }
        ensures answer { IfOk result (λ answer. answer ≡ sure_answer self.old name.now) }
        ensures after { OnOk result (self.new ≡ after_sure_take self.old name.now) }
        ensures memory { OnErr result (self.new ≡ self.old) }
    {
        let taken = self.answer(alloc, name)?;
        Ok(shelf::note(&mut self.given, name, taken))
    }
}
