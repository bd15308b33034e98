ghost use Rattle.std.specs.Prelude.{◌≡◌, ◌++◌, IfOk, codes};
ghost use Rattle.wb_base.specs.Answering.{AsDefined};
ghost use Rattle.wb_json.specs.Form.{Gives};
ghost use Rattle.wb_json.specs.Refusals.{code_at, coded, Refuses};
ghost use Rattle.wb_json.specs.declared.file_refusal.FileRefusal.TheVariants.{NoMemory};

use crate::wrong::Wrong;
use std::alloc::{AllocError, AllocFailed, Global};
use wb_base::Text;

/// Why a file's text is not what it is to be. The code says what is wrong.
#[derive(Debug, Drop)]
pub enum FileRefusal<C> {
    /// What is wrong, and its place: `#` and a JSON Pointer (RFC 6901).
    At(C, Text),
    NoMemory,
}

impl<C> From<AllocError> for FileRefusal<C> {
    ghost from_gives = { λ _ refusal. refusal ≡ NoMemory };

    fn from(_error: AllocError) -> FileRefusal<C> {
        FileRefusal::NoMemory
    }
}

impl<C, T: Drop> From<AllocFailed<T>> for FileRefusal<C> {
    ghost from_gives = { λ _ refusal. refusal ≡ NoMemory };

    fn from(_failed: AllocFailed<T>) -> FileRefusal<C> {
        FileRefusal::NoMemory
    }
}

/// What was found, where a wrong place is refused under this code.
pub fn coded<T, C: Drop>(
    alloc: Global,
    code: C,
    found: Result<T, Wrong>,
) -> Result<T, FileRefusal<C>>
    ensures { (given : _) → Gives found given → AsDefined code_at (coded code given) result }
{
    match found {
        Ok(value) => Ok(value),
        Err(Wrong::At(place)) => Err(at_root(alloc, code, &place)),
        Err(Wrong::NoMemory) => Err(FileRefusal::NoMemory),
    }
}

/// A refusal with its place, seen from the whole text.
pub fn at_root<C: Drop>(alloc: Global, code: C, place: &Text) -> FileRefusal<C>
    ensures { Refuses code place.now result }
{
    match from_root(alloc, place) {
        Ok(place) => FileRefusal::At(code, place),
        Err(_) => FileRefusal::NoMemory,
    }
}

fn from_root(alloc: Global, place: &Text) -> Result<Text, AllocError>
    ensures { IfOk result (λ whole. whole ≡ codes "#" ++ place.now) }
{
    let mut whole = String::from_str(alloc, "#")?;
    whole.push_str(place.as_str())?;
    Ok(Text::from_string(whole))
}
