ghost use Rattle.std.specs.Prelude.{◌≡◌, Some, map};
ghost use Rattle.wb_spec_check.specs.Places.{◌!◌, place_of};
ghost use Rattle.wb_spec_check.specs.Scopes.{tool_scope};
ghost use Rattle.wb_spec_check.specs.Tools.{operations_from, tool_at};
ghost use Rattle.wb_spec_check.specs.Validated.{each};
ghost use Rattle.wb_spec_check.specs.invariants.Known.{Numbers, place_in};
ghost use Rattle.wb_spec_check.specs.invariants.Reports.{Reports, ◌<&>◌};
ghost use Rattle.wb_viewpoint.specs.View.{trees_of};
ghost use Rattle.wb_viewpoint.specs.declared.tools.Tool.{Tool};

use crate::checked_tools::{CheckedOperation, CheckedTool};
use crate::names::Names;
use crate::operations::operations_at;
use crate::own_names::numbered;
use crate::path::Path;
use crate::problem::Problem;
use crate::reports::gather;
use crate::scopes::tool_scope;
use crate::spots::{optional_expression_at, own_name_at};
use std::alloc::{AllocError, Global};
use wb_base::{List, Text};
use wb_ecore::NumberedNames;
use wb_expressions::Checked;
use wb_viewpoint::{Operation, Tool};

/// The tools of a viewpoint, whose list stands at a place.
pub(crate) fn tools_at(
    alloc: Global,
    problems: &mut List<Problem>,
    names: &Names<'_>,
    path: &Path<'_>,
) -> Result<Option<List<CheckedTool>>, AllocError>
    ensures { Reports (each (λ i tool. tool_at names.now.0 names.now.1 i (place_of path.now ! i) tool) names.now.1.tools) problems.old result problems.new }
{
    let tools = names.content().tools.as_slice();
    let first = numbered(alloc, tools)?;
    each_tool_at(alloc, problems, names, &first, path, tools)
}

/// These tools, with the first place of each name of the viewpoint's tools.
fn each_tool_at(
    alloc: Global,
    problems: &mut List<Problem>,
    names: &Names<'_>,
    first: &NumberedNames,
    path: &Path<'_>,
    tools: &[Tool],
) -> Result<Option<List<CheckedTool>>, AllocError>
    requires { Numbers first.now (place_in (map (λ (it : Tool). it.name) names.now.1.tools)) }
    ensures { Reports (each (λ i tool. tool_at names.now.0 names.now.1 i (place_of path.now ! i) tool) tools.now) problems.old result problems.new }
{
    let mut checked = Some(List::new(alloc));
    for (number, tool) in tools.iter().enumerate() {
        let place = &Path::Item(&*path, number);
        let tool = tool_at(alloc, problems, names, first, number, place, tool)?;
        gather(&mut checked, tool)?;
    }
    Ok(checked)
}

/// The tool of this number.
fn tool_at(
    alloc: Global,
    problems: &mut List<Problem>,
    names: &Names<'_>,
    first: &NumberedNames,
    number: usize,
    path: &Path<'_>,
    tool: &Tool,
) -> Result<Option<CheckedTool>, AllocError>
    requires { Numbers first.now (place_in (map (λ (it : Tool). it.name) names.now.1.tools)) }
    ensures { Reports (tool_at names.now.0 names.now.1 number (place_of path.now) tool.now) problems.old result problems.new }
{
    let scope = tool_scope(alloc, tool.kind)?;
    tool_with_scope_at(
        alloc,
        problems,
        names,
        scope.as_slice(),
        first,
        number,
        path,
        tool,
    )
}

/// The same, with the variables of its kind.
#[tactic(auto, unfolding(crate::specs::Tools::tool_at, crate::specs::Places::place_of))]
fn tool_with_scope_at(
    alloc: Global,
    problems: &mut List<Problem>,
    names: &Names<'_>,
    scope: &[Text],
    first: &NumberedNames,
    number: usize,
    path: &Path<'_>,
    tool: &Tool,
) -> Result<Option<CheckedTool>, AllocError>
    requires scope { scope.now ≡ tool_scope tool.now.kind }
    requires first { Numbers first.now (place_in (map (λ (it : Tool). it.name) names.now.1.tools)) }
    ensures { Reports (tool_at names.now.0 names.now.1 number (place_of path.now) tool.now) problems.old result problems.new }
{
    let known = own_name_at(alloc, problems, path, first, number, tool.name.as_str())?;
    let place = Path::Member(path, "precondition");
    let precondition = optional_expression_at(
        alloc,
        problems,
        names.metamodel(),
        scope,
        &place,
        &tool.precondition,
    )?;
    let place = Path::Member(path, "do");
    let operations = tool.operations.as_slice();
    let rows = rows_at(alloc, problems, names, scope, &place, operations)?;
    Ok(tool_with(known, precondition, rows))
}

/// The rows of the operations of a tool.
fn rows_at(
    alloc: Global,
    problems: &mut List<Problem>,
    names: &Names<'_>,
    scope: &[Text],
    path: &Path<'_>,
    operations: &[Operation],
) -> Result<Option<List<CheckedOperation>>, AllocError>
    ensures { Reports (operations_from names.now.0 scope.now (place_of path.now) 0 (trees_of operations.now)) problems.old result problems.new }
{
    let mut rows = Some(List::new(alloc));
    operations_at(alloc, problems, names, scope, path, operations, &mut rows)?;
    Ok(rows)
}

fn tool_with(
    known: Option<()>,
    precondition: Option<Option<Checked>>,
    operations: Option<List<CheckedOperation>>,
) -> Option<CheckedTool>
    ensures { result ≡ (Some (λ _ precondition operations. record { precondition = precondition; operations = operations }) <&> known <&> precondition <&> operations) }
{
    match (known, precondition, operations) {
        (Some(()), Some(precondition), Some(operations)) => Some(CheckedTool {
            precondition,
            operations,
        }),
        _ => None,
    }
}
