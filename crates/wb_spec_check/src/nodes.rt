ghost use Rattle.std.specs.Prelude.{◌≡◌, ◌++◌, OnOk, Some};
ghost use Rattle.wb_viewpoint.specs.declared.mappings.MappingForm.TheVariants as form;
ghost use Rattle.wb_spec_check.specs.ChildLists.{lists_before, lists_of_form};
ghost use Rattle.wb_spec_check.specs.Findings.{layer_found};
ghost use Rattle.wb_spec_check.specs.Mappings.{nested_at, nested_with, node_at, node_with, objects_at, objects_with, shown_at, shown_with};
ghost use Rattle.wb_spec_check.specs.Places.{place_of};
ghost use Rattle.wb_spec_check.specs.Validated.{at, optional};
ghost use Rattle.wb_spec_check.specs.invariants.Reports.{◌<&>◌, Reports};
ghost use Rattle.wb_spec_check.specs.invariants.Taken.{TakenBy};

use crate::checked_looks::CheckedLooks;
use crate::checked_mappings::{CheckedMapping, CheckedObjects};
use crate::child_lists::{Taken, children_at};
use crate::groups::{Nested, Shown};
use crate::looks::looks_at;
use crate::names::Names;
use crate::path::Path;
use crate::problem::Problem;
use crate::roles::Role;
use crate::spots::{name_at, optional_expression_at};
use std::alloc::{AllocError, Global};
use wb_base::{List, Text};
use wb_expressions::Checked;
use wb_json::Name;
use wb_metamodel::ClassId;
use wb_viewpoint::{Mapping, NodeMapping, Objects};

/// The class of a mapping's objects, and the expression that gives them.
#[tactic(auto, unfolding(crate::specs::Mappings::objects_at, crate::specs::Places::place_of))]
pub(crate) fn objects_at(
    alloc: Global,
    problems: &mut List<Problem>,
    names: &Names<'_>,
    path: &Path<'_>,
    objects: &Objects,
) -> Result<Option<CheckedObjects>, AllocError>
    ensures { Reports (objects_at names.now.0 (place_of path.now) objects.now) problems.old result problems.new }
{
    let found = names.class(objects.domain.as_str());
    let class = name_at(
        alloc,
        problems,
        &Path::Member(path, "domain"),
        objects.domain.as_str(),
        found,
    )?;
    let candidates = optional_expression_at(
        alloc,
        problems,
        names.metamodel(),
        names.self_alone(),
        &Path::Member(path, "candidates"),
        &objects.candidates,
    )?;
    Ok(objects_with(alloc, class, candidates))
}

fn objects_with(
    alloc: Global,
    class: Option<ClassId>,
    candidates: Option<Option<Checked>>,
) -> Option<CheckedObjects>
    ensures { result ≡ (Some objects_with <&> class <&> candidates) }
{
    let domain = class?;
    let candidates = match candidates? {
        Some(checked) => checked,
        None => Checked::extent(alloc, domain),
    };
    Some(CheckedObjects { domain, candidates })
}

/// When the elements of a mapping are shown.
pub(crate) fn shown_at(
    alloc: Global,
    problems: &mut List<Problem>,
    names: &Names<'_>,
    scope: &[Text],
    path: &Path<'_>,
    mapping: &Mapping,
) -> Result<Option<Shown>, AllocError>
    ensures { Reports (shown_at names.now.0 names.now.1 scope.now (place_of path.now) mapping.now) problems.old result problems.new }
{
    let precondition = optional_expression_at(
        alloc,
        problems,
        names.metamodel(),
        scope,
        &Path::Member(path, "precondition"),
        &mapping.precondition,
    )?;
    let layer = layer_at(
        alloc,
        problems,
        names,
        &Path::Member(path, "layer"),
        &mapping.layer,
    )?;
    Ok(shown_with(precondition, layer))
}

fn layer_at(
    alloc: Global,
    problems: &mut List<Problem>,
    names: &Names<'_>,
    path: &Path<'_>,
    layer: &Option<Name>,
) -> Result<Option<Option<u32>>, AllocError>
    ensures { Reports (optional (λ name. at (place_of path.now) (layer_found names.now.1 name)) layer.now) problems.old result problems.new }
{
    match layer {
        Some(name) => {
            let found = names.layer(name.as_str());
            let layer = name_at(alloc, problems, path, name.as_str(), found)?;
            Ok(present(layer))
        }
        None => Ok(Some(None)),
    }
}

/// What was found of a part that is there.
pub(crate) fn present<T: Drop>(found: Option<T>) -> Option<Option<T>>
    ensures { result ≡ (Some Some <&> found) }
{
    match found {
        Some(part) => Some(Some(part)),
        None => None,
    }
}

fn shown_with(precondition: Option<Option<Checked>>, layer: Option<Option<u32>>) -> Option<Shown>
    ensures { result ≡ (Some shown_with <&> precondition <&> layer) }
{
    let precondition = precondition?;
    let layer = layer?;
    Some(Shown {
        precondition,
        layer: layer.unwrap_or(0),
    })
}

/// The mappings of the elements inside the elements of this mapping, and then of those on their border.
fn nested_at(
    alloc: Global,
    problems: &mut List<Problem>,
    names: &Names<'_>,
    taken: &mut Taken,
    path: &Path<'_>,
    number: u32,
    node: &NodeMapping,
) -> Result<Option<Nested>, AllocError>
    requires { TakenBy names.now.1 (lists_before names.now.1 number) taken.old }
    ensures reports { Reports (nested_at names.now.1 number (place_of path.now) node.now) problems.old result problems.new }
    ensures takes { OnOk result (TakenBy names.now.1 (lists_before names.now.1 number ++ lists_of_form number (form.Node node.now)) taken.new) }
{
    let children = children_at(
        alloc,
        problems,
        names,
        taken,
        &Path::Member(path, "children"),
        Role::Children(number, node.kind),
        node.children.as_slice(),
    )?;
    let borders = children_at(
        alloc,
        problems,
        names,
        taken,
        &Path::Member(path, "borders"),
        Role::Borders,
        node.borders.as_slice(),
    )?;
    Ok(nested_with(children, borders))
}

fn nested_with(children: Option<List<u32>>, borders: Option<List<u32>>) -> Option<Nested>
    ensures { result ≡ (Some nested_with <&> children <&> borders) }
{
    let children = children?;
    let borders = borders?;
    Some(Nested { children, borders })
}

/// The node mapping with this number, but for its name.
pub(crate) fn node_at(
    alloc: Global,
    problems: &mut List<Problem>,
    names: &Names<'_>,
    taken: &mut Taken,
    path: &Path<'_>,
    number: u32,
    mapping: &Mapping,
    node: &NodeMapping,
) -> Result<Option<CheckedMapping>, AllocError>
    requires { TakenBy names.now.1 (lists_before names.now.1 number) taken.old }
    ensures reports { Reports (node_at names.now.0 names.now.1 number (place_of path.now) mapping.now node.now) problems.old result problems.new }
    ensures takes { OnOk result (TakenBy names.now.1 (lists_before names.now.1 number ++ lists_of_form number (form.Node node.now)) taken.new) }
{
    let objects = objects_at(alloc, problems, names, path, &node.objects)?;
    let shown = shown_at(
        alloc,
        problems,
        names,
        names.with_container(),
        path,
        mapping,
    )?;
    let nested = nested_at(alloc, problems, names, taken, path, number, node)?;
    let looks = looks_at(alloc, problems, names, path, &mapping.looks)?;
    Ok(node_with(node, objects, shown, nested, looks))
}

fn node_with(
    node: &NodeMapping,
    objects: Option<CheckedObjects>,
    shown: Option<Shown>,
    nested: Option<Nested>,
    looks: Option<CheckedLooks>,
) -> Option<CheckedMapping>
    ensures { result ≡ (Some (node_with node.now) <&> objects <&> shown <&> nested <&> looks) }
{
    let objects = objects?;
    let shown = shown?;
    let nested = nested?;
    let looks = looks?;
    Some(shown.node(node, objects, nested, looks))
}
