ghost use Rattle.std.specs.Prelude.{◌≡◌, Some, map};
ghost use Rattle.wb_viewpoint.specs.declared.filters.Filter.{Filter};
ghost use Rattle.wb_spec_check.specs.Checked.{filter_at};
ghost use Rattle.wb_spec_check.specs.Findings.{mapping_found};
ghost use Rattle.wb_spec_check.specs.Places.{place_of, ◌!◌};
ghost use Rattle.wb_spec_check.specs.Validated.{at, each};
ghost use Rattle.wb_spec_check.specs.invariants.Known.{Numbers, place_in};
ghost use Rattle.wb_spec_check.specs.invariants.Reports.{Reports, ◌<&>◌};

use crate::checked_filters::CheckedFilter;
use crate::names::Names;
use crate::own_names::numbered;
use crate::path::Path;
use crate::problem::Problem;
use crate::reports::gather;
use crate::spots::{expression_at, name_at, own_name_at};
use std::alloc::{AllocError, Global};
use wb_base::List;
use wb_ecore::NumberedNames;
use wb_expressions::Checked;
use wb_json::Name;
use wb_viewpoint::Filter;

/// The mappings that a list at a place names.
fn named_at(
    alloc: Global,
    problems: &mut List<Problem>,
    names: &Names<'_>,
    path: &Path<'_>,
    list: &[Name],
) -> Result<Option<List<u32>>, AllocError>
    ensures { Reports (each (λ i name. at (place_of path.now ! i) (mapping_found names.now.1 name)) list.now) problems.old result problems.new }
{
    let mut found = Some(List::new(alloc));
    for (number, name) in list.iter().enumerate() {
        let text = name.as_str();
        let mapping = name_at(
            alloc,
            problems,
            &Path::Item(&*path, number),
            text,
            names.mapping(text),
        )?;
        gather(&mut found, mapping)?;
    }
    Ok(found)
}

fn filter_with(
    name: Option<()>,
    mappings: Option<List<u32>>,
    hides: Option<Checked>,
) -> Option<CheckedFilter>
    ensures { result ≡ (Some (λ _ mappings hides. record { mappings = mappings; hides = hides }) <&> name <&> mappings <&> hides) }
{
    match (name, mappings, hides) {
        (Some(()), Some(mappings), Some(hides)) => Some(CheckedFilter { mappings, hides }),
        _ => None,
    }
}

/// The filter of this number, at a place.
fn filter_at(
    alloc: Global,
    problems: &mut List<Problem>,
    names: &Names<'_>,
    first: &NumberedNames,
    number: usize,
    path: &Path<'_>,
    filter: &Filter,
) -> Result<Option<CheckedFilter>, AllocError>
    requires { Numbers first.now (place_in (map (λ (it : Filter). it.name) names.now.1.filters)) }
    ensures { Reports (filter_at names.now.0 names.now.1 number (place_of path.now) filter.now) problems.old result problems.new }
{
    let name = own_name_at(alloc, problems, path, first, number, filter.name.as_str())?;
    let mappings = named_at(
        alloc,
        problems,
        names,
        &Path::Member(path, "mappings"),
        filter.mappings.as_slice(),
    )?;
    let hides = expression_at(
        alloc,
        problems,
        names.metamodel(),
        names.self_alone(),
        &Path::Member(path, "hides"),
        &filter.hides,
    )?;
    Ok(filter_with(name, mappings, hides))
}

/// All filters. The path leads to their list.
pub(crate) fn filters_at(
    alloc: Global,
    problems: &mut List<Problem>,
    names: &Names<'_>,
    path: &Path<'_>,
) -> Result<Option<List<CheckedFilter>>, AllocError>
    ensures { Reports (each (λ i filter. filter_at names.now.0 names.now.1 i (place_of path.now ! i) filter) names.now.1.filters) problems.old result problems.new }
{
    let filters = names.content().filters.as_slice();
    let first = numbered(alloc, filters)?;
    let mut found = Some(List::new(alloc));
    for (number, filter) in filters.iter().enumerate() {
        let filter = filter_at(
            alloc,
            problems,
            &*names,
            &first,
            number,
            &Path::Item(&*path, number),
            filter,
        )?;
        gather(&mut found, filter)?;
    }
    Ok(found)
}
