ghost use Rattle.std.specs.Prelude.{◌≡◌, [], IfOk};
ghost use Rattle.wb_model_json.specs.ModelFile.{repeat_from};

use indexmap::IndexSet;
use std::alloc::{AllocError, Global};

/// The place of the first number that stands earlier in the list.
pub fn first_repeated(alloc: Global, numbers: &[u32]) -> Result<Option<usize>, AllocError>
    ensures { IfOk result (λ place. place ≡ repeat_from 0 [] numbers.now) }
{
    let mut seen = IndexSet::new(alloc);
    for (i, number) in numbers.iter().enumerate() {
        let (_, is_new) = seen.insert_full(*number)?;
        if !is_new {
            return Ok(Some(i));
        }
    }
    Ok(None)
}
