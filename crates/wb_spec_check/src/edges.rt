ghost use Rattle.std.specs.Prelude.{◌≡◌, Some};
ghost use Rattle.wb_viewpoint.specs.declared.edges.ObjectEdge.{ObjectEdge};
ghost use Rattle.wb_spec_check.specs.Mappings.{both_ends_at, edge_at, edge_with, ends_at, ends_with, expression_at, objects_at, source_with};
ghost use Rattle.wb_spec_check.specs.Places.{place_of};
ghost use Rattle.wb_spec_check.specs.Scopes.{own_scope};
ghost use Rattle.wb_spec_check.specs.Validated.{optional};
ghost use Rattle.wb_spec_check.specs.invariants.Reports.{◌<&>◌, Reports};

use crate::checked_looks::CheckedLooks;
use crate::checked_mappings::{CheckedMapping, CheckedObjects, CheckedSource};
use crate::groups::{Ends, Shown};
use crate::looks::looks_at;
use crate::names::Names;
use crate::nodes::{objects_at, present, shown_at};
use crate::path::Path;
use crate::problem::Problem;
use crate::reports::gather;
use crate::spots::{expression_at, name_at};
use std::alloc::{AllocError, Global};
use wb_base::List;
use wb_expressions::Checked;
use wb_json::Name;
use wb_viewpoint::{EdgeMapping, Mapping, ObjectEdge};

/// The mappings at whose elements edges begin, or end.
fn ends_at(
    alloc: Global,
    problems: &mut List<Problem>,
    names: &Names<'_>,
    path: &Path<'_>,
    list: &[Name],
) -> Result<Option<List<u32>>, AllocError>
    ensures { Reports (ends_at names.now.1 (place_of path.now) list.now) problems.old result problems.new }
{
    let mut ends = Some(List::new(alloc));
    for (number, name) in list.iter().enumerate() {
        let name = name.as_str();
        let found = names.end(name);
        let end = name_at(alloc, problems, &Path::Item(&*path, number), name, found)?;
        gather(&mut ends, end)?;
    }
    Ok(ends)
}

fn both_ends_at(
    alloc: Global,
    problems: &mut List<Problem>,
    names: &Names<'_>,
    path: &Path<'_>,
    edge: &EdgeMapping,
) -> Result<Option<Ends>, AllocError>
    ensures { Reports (both_ends_at names.now.1 (place_of path.now) edge.now) problems.old result problems.new }
{
    let sources = ends_at(
        alloc,
        problems,
        names,
        &Path::Member(path, "sources"),
        edge.ends.sources.as_slice(),
    )?;
    let targets = ends_at(
        alloc,
        problems,
        names,
        &Path::Member(path, "targets"),
        edge.ends.targets.as_slice(),
    )?;
    Ok(ends_with(sources, targets))
}

fn ends_with(sources: Option<List<u32>>, targets: Option<List<u32>>) -> Option<Ends>
    ensures { result ≡ (Some ends_with <&> sources <&> targets) }
{
    let sources = sources?;
    let targets = targets?;
    Some(Ends { sources, targets })
}

/// The objects for which edges stand, if they stand for any.
fn edge_objects_at(
    alloc: Global,
    problems: &mut List<Problem>,
    names: &Names<'_>,
    path: &Path<'_>,
    object_edge: &Option<ObjectEdge>,
) -> Result<Option<Option<CheckedObjects>>, AllocError>
    ensures { Reports (optional (λ (it : ObjectEdge). objects_at names.now.0 (place_of path.now) it.objects) object_edge.now) problems.old result problems.new }
{
    match object_edge {
        Some(object_edge) => {
            let objects = objects_at(alloc, problems, names, path, &object_edge.objects)?;
            Ok(present(objects))
        }
        None => Ok(Some(None)),
    }
}

/// What gives the sources of edges that stand for objects.
fn source_finder_at(
    alloc: Global,
    problems: &mut List<Problem>,
    names: &Names<'_>,
    path: &Path<'_>,
    object_edge: &Option<ObjectEdge>,
) -> Result<Option<Option<Checked>>, AllocError>
    ensures { Reports (optional (λ (it : ObjectEdge). expression_at names.now.0 own_scope (place_of path.now) it.source_finder) object_edge.now) problems.old result problems.new }
{
    match object_edge {
        Some(object_edge) => {
            let finder = expression_at(
                alloc,
                problems,
                names.metamodel(),
                names.self_alone(),
                path,
                &object_edge.source_finder,
            )?;
            Ok(present(finder))
        }
        None => Ok(Some(None)),
    }
}

/// An edge mapping, but for its name.
pub(crate) fn edge_at(
    alloc: Global,
    problems: &mut List<Problem>,
    names: &Names<'_>,
    path: &Path<'_>,
    mapping: &Mapping,
    edge: &EdgeMapping,
) -> Result<Option<CheckedMapping>, AllocError>
    ensures { Reports (edge_at names.now.0 names.now.1 (place_of path.now) mapping.now edge.now) problems.old result problems.new }
{
    let objects = edge_objects_at(alloc, problems, names, path, &edge.object_edge)?;
    let shown = shown_at(alloc, problems, names, names.self_alone(), path, mapping)?;
    let ends = both_ends_at(alloc, problems, names, path, edge)?;
    let source_finder = source_finder_at(
        alloc,
        problems,
        names,
        &Path::Member(path, "sourceFinder"),
        &edge.object_edge,
    )?;
    let target_finder = expression_at(
        alloc,
        problems,
        names.metamodel(),
        names.self_alone(),
        &Path::Member(path, "targetFinder"),
        &edge.target_finder,
    )?;
    let looks = looks_at(alloc, problems, names, path, &mapping.looks)?;
    Ok(edge_with(objects, shown, ends, source_finder, target_finder, looks))
}

fn edge_with(
    objects: Option<Option<CheckedObjects>>,
    shown: Option<Shown>,
    ends: Option<Ends>,
    source_finder: Option<Option<Checked>>,
    target_finder: Option<Checked>,
    looks: Option<CheckedLooks>,
) -> Option<CheckedMapping>
    ensures { result ≡ (Some edge_with <&> objects <&> shown <&> ends <&> source_finder <&> target_finder <&> looks) }
{
    let objects = objects?;
    let shown = shown?;
    let ends = ends?;
    let source_finder = source_finder?;
    let target_finder = target_finder?;
    let looks = looks?;
    Some(shown.edge(
        ends.edge(source_with(objects, source_finder), target_finder),
        looks,
    ))
}

/// Both are there, or none is.
fn source_with(objects: Option<CheckedObjects>, finder: Option<Checked>) -> Option<CheckedSource>
    ensures { result ≡ source_with objects finder }
{
    let objects = objects?;
    let source_finder = finder?;
    Some(CheckedSource {
        objects,
        source_finder,
    })
}
