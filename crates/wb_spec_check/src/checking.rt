ghost use Rattle.std.specs.Prelude.{◌≡◌, Some, [], ◌∷◌, IfOk, OnOk};
ghost use Rattle.wb_spec_check.specs.Answers.{Answers};
ghost use Rattle.wb_spec_check.specs.ChildLists.{top_list};
ghost use Rattle.wb_spec_check.specs.Checked.{checked, all_parts};
ghost use Rattle.wb_spec_check.specs.Findings.{class_found};
ghost use Rattle.wb_spec_check.specs.Mappings.{children_at};
ghost use Rattle.wb_spec_check.specs.Places.{place_of, diagram};
ghost use Rattle.wb_spec_check.specs.Validated.{at};
ghost use Rattle.wb_spec_check.specs.invariants.Taken.{TakenBy};
ghost use Rattle.wb_spec_check.specs.invariants.Reports.{Reports, ◌<&>◌};

use crate::checked_filters::CheckedFilter;
use crate::checked_mappings::CheckedMapping;
use crate::checked_tools::CheckedTool;
use crate::checked_viewpoint::CheckedViewpoint;
use crate::child_lists::{Taken, children_at};
use crate::filters::filters_at;
use crate::layers::layers_at;
use crate::mappings::mappings_at;
use crate::names::Names;
use crate::parts::Parts;
use crate::path::Path;
use crate::problem::Problem;
use crate::roles::Role;
use crate::spots::name_at;
use crate::tools::tools_at;
use std::alloc::{AllocError, Global};
use wb_base::List;
use wb_metamodel::{ClassId, Metamodel};
use wb_viewpoint::{Content, Viewpoint};

/// What a check of a viewpoint finds.
#[derive(Drop)]
pub enum Checking {
    Good(CheckedViewpoint),
    /// All problems, in the order of the walk; at least one.
    Bad(List<Problem>),
}

/// The check of a viewpoint over a metamodel.
pub fn check_viewpoint(
    alloc: Global,
    viewpoint: Viewpoint,
    metamodel: &Metamodel,
) -> Result<Checking, AllocError>
    ensures { IfOk result (Answers metamodel.now viewpoint) }
{
    let mut problems = List::new(alloc);
    match content_parts(alloc, &mut problems, metamodel, viewpoint.content())? {
        Some(parts) => Ok(Checking::Good(CheckedViewpoint::new(viewpoint, parts))),
        None => Ok(Checking::Bad(problems)),
    }
}

fn content_parts(
    alloc: Global,
    problems: &mut List<Problem>,
    metamodel: &Metamodel,
    content: &Content,
) -> Result<Option<Parts>, AllocError>
    ensures { Reports (checked metamodel.now content.now) problems.old result problems.new }
{
    let names = Names::new(alloc, metamodel, content)?;
    parts_at(
        alloc,
        problems,
        &names,
        &Path::Member(&Path::Root, "diagram"),
    )
}

fn domain_at(
    alloc: Global,
    problems: &mut List<Problem>,
    names: &Names<'_>,
    path: &Path<'_>,
) -> Result<Option<ClassId>, AllocError>
    ensures { Reports (at (place_of path.now) (class_found names.now.0 names.now.1.domain)) problems.old result problems.new }
{
    let name = names.content().domain.as_str();
    name_at(alloc, problems, path, name, names.class(name))
}

/// The mappings on top, whose names are taken then.
fn top_at(
    alloc: Global,
    problems: &mut List<Problem>,
    names: &Names<'_>,
    taken: &mut Taken,
    path: &Path<'_>,
) -> Result<Option<List<u32>>, AllocError>
    requires { TakenBy names.now.1 [] taken.old }
    ensures reports { Reports (children_at names.now.1 [] (place_of path.now) (top_list names.now.1)) problems.old result problems.new }
    ensures takes { OnOk result (TakenBy names.now.1 (top_list names.now.1 ∷ []) taken.new) }
{
    let list = names.content().top.as_slice();
    children_at(alloc, problems, names, taken, path, Role::Top, list)
}

fn parts_with(
    domain: Option<ClassId>,
    layers: Option<()>,
    top: Option<List<u32>>,
    mappings: Option<List<CheckedMapping>>,
    filters: Option<List<CheckedFilter>>,
    tools: Option<List<CheckedTool>>,
) -> Option<Parts>
    ensures { result ≡ (Some all_parts <&> domain <&> layers <&> top <&> mappings <&> filters <&> tools) }
{
    match (domain, layers, top, mappings, filters, tools) {
        (Some(domain), Some(()), Some(top), Some(mappings), Some(filters), Some(tools)) => {
            Some(Parts {
                domain,
                top,
                mappings,
                filters,
                tools,
            })
        }
        _ => None,
    }
}

/// All parts of a viewpoint. The path leads to its diagram.
fn parts_at(
    alloc: Global,
    problems: &mut List<Problem>,
    names: &Names<'_>,
    path: &Path<'_>,
) -> Result<Option<Parts>, AllocError>
    requires { place_of path.now ≡ diagram }
    ensures { Reports (checked names.now.0 names.now.1) problems.old result problems.new }
{
    let domain = domain_at(alloc, problems, names, &Path::Member(path, "domain"))?;
    let layers = layers_at(alloc, problems, names, &Path::Member(path, "layers"))?;
    let mut taken = Taken::new(alloc);
    let top = top_at(
        alloc,
        problems,
        names,
        &mut taken,
        &Path::Member(path, "top"),
    )?;
    let mappings = mappings_at(
        alloc,
        problems,
        names,
        &mut taken,
        &Path::Member(path, "mappings"),
    )?;
    let filters = filters_at(alloc, problems, names, &Path::Member(path, "filters"))?;
    let tools = tools_at(alloc, problems, names, &Path::Member(path, "tools"))?;
    Ok(parts_with(domain, layers, top, mappings, filters, tools))
}
