ghost use Rattle.std.specs.Prelude.{◌≡◌, Some, map, codes};
ghost use Rattle.wb_spec_check.specs.Checked.{layers_at};
ghost use Rattle.wb_spec_check.specs.Places.{place_of, ◌▸◌, diagram};
ghost use Rattle.wb_spec_check.specs.invariants.Reports.{Reports, ◌<&>◌, both_good};

use crate::names::Names;
use crate::path::Path;
use crate::problem::Problem;
use crate::spots::own_name_at;
use std::alloc::{AllocError, Global};
use wb_base::List;

/// Is one more layer good, and those before it?
fn also(all: Option<()>, one: Option<()>) -> Option<()>
    ensures { result ≡ (Some both_good <&> all <&> one) }
{
    match (all, one) {
        (Some(()), Some(())) => Some(()),
        _ => None,
    }
}

/// The layers, at their place.
pub(crate) fn layers_at(
    alloc: Global,
    problems: &mut List<Problem>,
    names: &Names<'_>,
    path: &Path<'_>,
) -> Result<Option<()>, AllocError>
    requires { place_of path.now ≡ diagram ▸ codes "layers" }
    ensures { Reports (layers_at names.now.1) problems.old result problems.new }
{
    let mut all = Some(());
    for (number, layer) in names.content().layers.as_slice().iter().enumerate() {
        let own = own_name_at(
            alloc,
            problems,
            &Path::Item(&*path, number),
            names.layer_places(),
            number,
            layer.name.as_str(),
        )?;
        all = also(all, own);
    }
    Ok(all)
}
