ghost use Rattle.std.specs.Prelude.{◌≡◌, ℕ, List, IfOk, map};
ghost use Rattle.std.specs.Borrow.{Bor};

use std::alloc::{AllocError, Global};
use wb_base::{List, Text};

/// The scope of these variables.
pub(crate) fn scope_of(alloc: Global, words: &[&str]) -> Result<List<Text>, AllocError>
    ensures { IfOk result (λ scope. scope ≡ map (λ (word : Bor (List ℕ)). word.now) words.now) }
{
    let mut scope = List::new(alloc);
    for word in words {
        scope.push(Text::from_str(alloc, word)?)?;
    }
    Ok(scope)
}
