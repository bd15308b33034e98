ghost use Rattle.std.specs.Prelude.{◌≡◌, [], ◌∷◌, ◌++◌, OnOk, Some};
ghost use Rattle.wb_spec_check.specs.ChildLists.{lists_before, lists_of_form, top_list};
ghost use Rattle.wb_spec_check.specs.Mappings.{form_at, mapping_at};
ghost use Rattle.wb_spec_check.specs.Places.{◌!◌, place_of};
ghost use Rattle.wb_spec_check.specs.Validated.{each};
ghost use Rattle.wb_spec_check.specs.invariants.Reports.{◌<&>◌, Reports};
ghost use Rattle.wb_spec_check.specs.invariants.Taken.{TakenBy};

use crate::checked_mappings::CheckedMapping;
use crate::child_lists::Taken;
use crate::edges::edge_at;
use crate::names::Names;
use crate::nodes::node_at;
use crate::path::Path;
use crate::problem::Problem;
use crate::reports::gather;
use crate::spots::own_name_at;
use std::alloc::{AllocError, Global};
use wb_base::List;
use wb_viewpoint::{Mapping, MappingForm};

/// All mappings. The names of the mappings on top are taken before, and those of all child lists after.
/// A count that no `u32` holds is taken as want of memory.
pub(crate) fn mappings_at(
    alloc: Global,
    problems: &mut List<Problem>,
    names: &Names<'_>,
    taken: &mut Taken,
    path: &Path<'_>,
) -> Result<Option<List<CheckedMapping>>, AllocError>
    requires { TakenBy names.now.1 (top_list names.now.1 ∷ []) taken.old }
    ensures { Reports (each (λ i mapping. mapping_at names.now.0 names.now.1 i (place_of path.now ! i) mapping) names.now.1.mappings) problems.old result problems.new }
{
    let mappings = names.content().mappings.as_slice();
    if mappings.len() > u32::MAX as usize {
        return Err(AllocError);
    }
    let mut checked = Some(List::new(alloc));
    for (number, mapping) in mappings.iter().enumerate() {
        let found = mapping_at(
            alloc,
            problems,
            names,
            taken,
            &Path::Item(&*path, number),
            number as u32,
            mapping,
        )?;
        gather(&mut checked, found)?;
    }
    Ok(checked)
}

/// The mapping with this number: its name, and then what its form has.
fn mapping_at(
    alloc: Global,
    problems: &mut List<Problem>,
    names: &Names<'_>,
    taken: &mut Taken,
    path: &Path<'_>,
    number: u32,
    mapping: &Mapping,
) -> Result<Option<CheckedMapping>, AllocError>
    requires { TakenBy names.now.1 (lists_before names.now.1 number) taken.old }
    ensures reports { Reports (mapping_at names.now.0 names.now.1 number (place_of path.now) mapping.now) problems.old result problems.new }
    ensures takes { OnOk result (TakenBy names.now.1 (lists_before names.now.1 number ++ lists_of_form number mapping.now.form) taken.new) }
{
    let named = own_name_at(
        alloc,
        problems,
        path,
        names.mapping_places(),
        number as usize,
        mapping.name.as_str(),
    )?;
    let checked = form_at(alloc, problems, names, taken, path, number, mapping)?;
    Ok(mapping_with(named, checked))
}

fn mapping_with(named: Option<()>, checked: Option<CheckedMapping>) -> Option<CheckedMapping>
    ensures { result ≡ (Some (λ _ it. it) <&> named <&> checked) }
{
    named?;
    checked
}

/// What a mapping has beside its name.
fn form_at(
    alloc: Global,
    problems: &mut List<Problem>,
    names: &Names<'_>,
    taken: &mut Taken,
    path: &Path<'_>,
    number: u32,
    mapping: &Mapping,
) -> Result<Option<CheckedMapping>, AllocError>
    requires { TakenBy names.now.1 (lists_before names.now.1 number) taken.old }
    ensures reports { Reports (form_at names.now.0 names.now.1 number (place_of path.now) mapping.now mapping.now.form) problems.old result problems.new }
    ensures takes { OnOk result (TakenBy names.now.1 (lists_before names.now.1 number ++ lists_of_form number mapping.now.form) taken.new) }
{
    match &mapping.form {
        MappingForm::Node(node) => {
            node_at(alloc, problems, names, taken, path, number, mapping, node)
        }
        MappingForm::Edge(edge) => edge_at(alloc, problems, names, path, mapping, edge),
    }
}
