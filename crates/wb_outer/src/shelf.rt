ghost use Rattle.std.specs.Prelude.{◌≡◌, ◌++◌, ◌∷◌, [], Option, Some, IfOk, OnErr};
ghost use Rattle.std.specs.Option.{option_copied};
ghost use Rattle.wb_outer.specs.Shelf.{ShelfTold, Gives, call, taken_of, file_named};

use crate::bytes::Bytes;
use crate::log::Log;
use std::alloc::{AllocError, Global};

/// What a call for the bytes of a name answers.
#[derive(Debug, Drop)]
pub enum Taken {
    Bytes(Bytes),
    /// There are more than 16,777,216 bytes.
    TooBig,
    Failed,
}

/// A call for the bytes of a name, and its answer.
#[derive(Drop)]
pub struct Call {
    pub name: Log<u8>,
    pub answer: Taken,
}

/// Files by name. A shelf tells each name that was asked of it, with the answer.
pub trait Shelf {
    ghost told: { Self → ShelfTold };

    /// The bytes of a name. A missing name is a failed call.
    fn take(&mut self, alloc: Global, name: &[u8]) -> Result<Taken, AllocError>
        ensures gives { IfOk result (Gives (told self.old) (told self.new) name.now) }
        ensures memory { OnErr result (told self.new ≡ told self.old) };
}

/// A shelf gives at most so many bytes at once.
pub const FILE_LIMIT: usize = 16_777_216;

/// The call for a name that has this answer is noted.
pub(crate) fn note(given: &mut Log<Call>, name: &[u8], answer: Taken) -> Taken
    ensures noted { given.new ≡ given.old ++ call name.now answer ∷ [] }
    ensures same { result ≡ answer }
{
    let call = Call {
        name: Log::of(name),
        answer,
    };
    given.note(&call);
    call.answer
}

/// The first of these files that has the name.
pub(crate) fn file_named<'a>(files: &'a [(Bytes, Bytes)], name: &[u8]) -> Option<&'a Bytes>
    ensures { option_copied result ≡ file_named files.now name.now }
{
    let file = files.iter().find(|file| file.0.as_slice() == name)?;
    Some(&file.1)
}

/// A copy of the bytes that stand under a name, where they are not too many.
pub(crate) fn copy_of(alloc: Global, bytes: &[u8]) -> Result<Taken, AllocError>
    ensures { IfOk result (λ taken. taken ≡ taken_of (Some bytes.now)) }
{
    if bytes.len() > FILE_LIMIT {
        return Ok(Taken::TooBig);
    }
    Ok(Taken::Bytes(Bytes::from_slice(alloc, bytes)?))
}
