ghost use Rattle.std.specs.Prelude.{◌≡◌, map, IfOk};
ghost use Rattle.wb_picture.specs.Picture.{mapping_names};

use std::alloc::{AllocError, Global};
use wb_base::{List, Text};
use wb_json::Name;
use wb_viewpoint::Content;

/// The names of the mappings, by number.
pub fn mapping_names(alloc: Global, content: &Content) -> Result<List<Text>, AllocError>
    ensures { IfOk result (λ names. names ≡ mapping_names content.now) }
{
    let mut names = Vec::new(alloc);
    for mapping in content.mappings.as_slice() {
        names.push(text_of(alloc, &mapping.name)?)?;
    }
    Ok(List::from_vec(names))
}

/// The text of a name, with memory of its own.
pub fn text_of(alloc: Global, name: &Name) -> Result<Text, AllocError>
    ensures { IfOk result (λ text. text ≡ name.now) }
{
    Text::from_str(alloc, name.as_str())
}
