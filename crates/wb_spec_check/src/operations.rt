ghost use Rattle.std.specs.Prelude.{◌≡◌, ◌∷◌, [], option_map, option_and_then, codes, OnOk};
ghost use Rattle.wb_spec_check.specs.Findings.{feature_found, made_class, reference_found};
ghost use Rattle.wb_spec_check.specs.Mappings.{expression_at};
ghost use Rattle.wb_spec_check.specs.Places.{◌▸◌, place_of};
ghost use Rattle.wb_spec_check.specs.Tools.{action_at, operation_at, operations_from, with_class, with_expression, maybe_expression};
ghost use Rattle.wb_spec_check.specs.Validated.{good, ◌<*>◌, at, optional};
ghost use Rattle.wb_spec_check.specs.invariants.Reports.{Reports};
ghost use Rattle.wb_spec_check.specs.invariants.Rows.{TellsRows};
ghost use Rattle.wb_viewpoint.specs.View.{tree_of, trees_of};

use crate::checked_tools::CheckedOperation;
use crate::names::Names;
use crate::path::Path;
use crate::problem::Problem;
use crate::reports::gather;
use crate::scopes::InnerScope;
use crate::spots::{expression_at, name_at, optional_expression_at};
use std::alloc::{AllocError, Global};
use wb_base::{List, Text};
use wb_expressions::Checked;
use wb_json::Name;
use wb_metamodel::ClassId;
use wb_viewpoint::{Action, ExpressionText, Operation};

/// Operations, each before those inside it: their rows go behind those before, where all are good.
#[cycle(operations)]
pub(crate) fn operations_at(
    alloc: Global,
    problems: &mut List<Problem>,
    names: &Names<'_>,
    scope: &[Text],
    path: &Path<'_>,
    operations: &[Operation],
    rows: &mut Option<List<CheckedOperation>>,
) -> Result<(), AllocError>
    ensures { OnOk result (TellsRows (operations_from names.now.0 scope.now (place_of path.now) 0 (trees_of operations.now)) problems.old rows.old rows.new problems.new) }
{
    for (number, operation) in operations.iter().enumerate() {
        let place = &Path::Item(&*path, number);
        operation_at(alloc, problems, names, scope, place, operation, rows)?;
    }
    Ok(())
}

/// An operation, and those inside it.
#[cycle(operations)]
fn operation_at(
    alloc: Global,
    problems: &mut List<Problem>,
    names: &Names<'_>,
    scope: &[Text],
    path: &Path<'_>,
    operation: &Operation,
    rows: &mut Option<List<CheckedOperation>>,
) -> Result<(), AllocError>
    ensures { OnOk result (TellsRows (operation_at names.now.0 scope.now (place_of path.now) (tree_of operation.now)) problems.old rows.old rows.new problems.new) }
{
    let row = action_at(alloc, problems, names, scope, path, &operation.action)?;
    gather(rows, row)?;
    let inner = InnerScope::new(alloc, scope, &operation.action)?;
    operations_at(
        alloc,
        problems,
        names,
        inner.as_slice(),
        &Path::Member(&*path, "do"),
        operation.inside.as_slice(),
        rows,
    )
}

/// What an operation does, with what it names.
#[tactic(auto, unfolding(crate::specs::Tools::action_at, crate::specs::Places::place_of))]
fn action_at(
    alloc: Global,
    problems: &mut List<Problem>,
    names: &Names<'_>,
    scope: &[Text],
    path: &Path<'_>,
    action: &Action,
) -> Result<Option<CheckedOperation>, AllocError>
    ensures { Reports (action_at names.now.0 scope.now (place_of path.now) action.now) problems.old result problems.new }
{
    match action {
        Action::ChangeContext { browse } => {
            let place = Path::Member(path, "browse");
            computed_at(alloc, problems, names, scope, &place, browse)
        }
        Action::CreateInstance {
            reference,
            class,
            ..
        } => create_at(alloc, problems, names, path, reference, class),
        Action::Set { feature, value } => {
            set_at(alloc, problems, names, scope, path, feature, value)
        }
        Action::Unset { feature, value } => {
            unset_at(alloc, problems, names, scope, path, feature, value)
        }
        Action::Move { to, reference } => {
            move_at(alloc, problems, names, scope, path, to, reference)
        }
        Action::Remove => Ok(Some(CheckedOperation {
            class: None,
            expression: None,
        })),
        Action::For { items, .. } => {
            let place = Path::Member(path, "items");
            computed_at(alloc, problems, names, scope, &place, items)
        }
        Action::If { condition } => {
            let place = Path::Member(path, "condition");
            computed_at(alloc, problems, names, scope, &place, condition)
        }
    }
}

/// An operation that has an expression alone, which stands at the place.
fn computed_at(
    alloc: Global,
    problems: &mut List<Problem>,
    names: &Names<'_>,
    scope: &[Text],
    path: &Path<'_>,
    text: &ExpressionText,
) -> Result<Option<CheckedOperation>, AllocError>
    ensures { Reports (good with_expression <*> expression_at names.now.0 scope.now (place_of path.now) text.now) problems.old result problems.new }
{
    let expression = expression_at(alloc, problems, names.metamodel(), scope, path, text)?;
    Ok(with_expression(expression))
}

/// An operation that makes an object.
fn create_at(
    alloc: Global,
    problems: &mut List<Problem>,
    names: &Names<'_>,
    path: &Path<'_>,
    reference: &Name,
    class: &Name,
) -> Result<Option<CheckedOperation>, AllocError>
    ensures { Reports (good (λ _ made. with_class made) <*> at (place_of path.now ▸ codes "reference") (reference_found names.now.0 reference.now) <*> at (place_of path.now ▸ codes "class") (made_class names.now.0 class.now)) problems.old result problems.new }
{
    let known = reference_at(alloc, problems, names, path, reference)?;
    let made = class_at(alloc, problems, names, path, class)?;
    Ok(row_where(known, with_class(made)))
}

/// An operation that sets or adds to a feature.
#[tactic(auto, unfolding(crate::specs::Places::place_of))]
fn set_at(
    alloc: Global,
    problems: &mut List<Problem>,
    names: &Names<'_>,
    scope: &[Text],
    path: &Path<'_>,
    feature: &Name,
    value: &ExpressionText,
) -> Result<Option<CheckedOperation>, AllocError>
    ensures { Reports (good (λ _ checked. with_expression checked) <*> at (place_of path.now ▸ codes "feature") (feature_found names.now.0 feature.now) <*> expression_at names.now.0 scope.now (place_of path.now ▸ codes "value") value.now) problems.old result problems.new }
{
    let known = feature_at(alloc, problems, names, path, feature)?;
    let place = Path::Member(path, "value");
    let checked = expression_at(alloc, problems, names.metamodel(), scope, &place, value)?;
    Ok(row_where(known, with_expression(checked)))
}

/// An operation that takes a value of a feature, or all of them.
#[tactic(auto, unfolding(crate::specs::Places::place_of))]
fn unset_at(
    alloc: Global,
    problems: &mut List<Problem>,
    names: &Names<'_>,
    scope: &[Text],
    path: &Path<'_>,
    feature: &Name,
    value: &Option<ExpressionText>,
) -> Result<Option<CheckedOperation>, AllocError>
    ensures { Reports (good (λ _ checked. maybe_expression checked) <*> at (place_of path.now ▸ codes "feature") (feature_found names.now.0 feature.now) <*> optional (expression_at names.now.0 scope.now (place_of path.now ▸ codes "value")) value.now) problems.old result problems.new }
{
    let known = feature_at(alloc, problems, names, path, feature)?;
    let place = Path::Member(path, "value");
    let checked = optional_expression_at(alloc, problems, names.metamodel(), scope, &place, value)?;
    Ok(row_where(known, maybe_expression(checked)))
}

/// An operation that moves the context.
#[tactic(auto, unfolding(crate::specs::Places::place_of))]
fn move_at(
    alloc: Global,
    problems: &mut List<Problem>,
    names: &Names<'_>,
    scope: &[Text],
    path: &Path<'_>,
    to: &ExpressionText,
    reference: &Name,
) -> Result<Option<CheckedOperation>, AllocError>
    ensures { Reports (good (λ checked _. with_expression checked) <*> expression_at names.now.0 scope.now (place_of path.now ▸ codes "to") to.now <*> at (place_of path.now ▸ codes "reference") (reference_found names.now.0 reference.now)) problems.old result problems.new }
{
    let place = Path::Member(path, "to");
    let checked = expression_at(alloc, problems, names.metamodel(), scope, &place, to)?;
    let known = reference_at(alloc, problems, names, path, reference)?;
    Ok(row_where(known, with_expression(checked)))
}

#[tactic(auto, unfolding(crate::specs::Places::place_of))]
fn feature_at(
    alloc: Global,
    problems: &mut List<Problem>,
    names: &Names<'_>,
    path: &Path<'_>,
    feature: &Name,
) -> Result<Option<()>, AllocError>
    ensures { Reports (at (place_of path.now ▸ codes "feature") (feature_found names.now.0 feature.now)) problems.old result problems.new }
{
    let place = Path::Member(path, "feature");
    let name = feature.as_str();
    name_at(alloc, problems, &place, name, names.feature(name))
}

#[tactic(auto, unfolding(crate::specs::Places::place_of))]
fn reference_at(
    alloc: Global,
    problems: &mut List<Problem>,
    names: &Names<'_>,
    path: &Path<'_>,
    reference: &Name,
) -> Result<Option<()>, AllocError>
    ensures { Reports (at (place_of path.now ▸ codes "reference") (reference_found names.now.0 reference.now)) problems.old result problems.new }
{
    let place = Path::Member(path, "reference");
    let name = reference.as_str();
    name_at(alloc, problems, &place, name, names.reference(name))
}

/// A class of which objects can be made.
#[tactic(auto, unfolding(crate::specs::Places::place_of))]
fn class_at(
    alloc: Global,
    problems: &mut List<Problem>,
    names: &Names<'_>,
    path: &Path<'_>,
    class: &Name,
) -> Result<Option<ClassId>, AllocError>
    ensures { Reports (at (place_of path.now ▸ codes "class") (made_class names.now.0 class.now)) problems.old result problems.new }
{
    let place = Path::Member(path, "class");
    let name = class.as_str();
    name_at(alloc, problems, &place, name, names.made_class(name))
}

fn with_class(class: Option<ClassId>) -> Option<CheckedOperation>
    ensures { result ≡ option_map with_class class }
{
    match class {
        Some(class) => Some(CheckedOperation {
            class: Some(class),
            expression: None,
        }),
        None => None,
    }
}

fn with_expression(expression: Option<Checked>) -> Option<CheckedOperation>
    ensures { result ≡ option_map with_expression expression }
{
    match expression {
        Some(expression) => Some(CheckedOperation {
            class: None,
            expression: Some(expression),
        }),
        None => None,
    }
}

fn maybe_expression(expression: Option<Option<Checked>>) -> Option<CheckedOperation>
    ensures { result ≡ option_map maybe_expression expression }
{
    match expression {
        Some(expression) => Some(CheckedOperation {
            class: None,
            expression,
        }),
        None => None,
    }
}

/// The row of an operation, where the name that it has is known too.
fn row_where(known: Option<()>, row: Option<CheckedOperation>) -> Option<CheckedOperation>
    ensures { result ≡ option_and_then (λ _. row) known }
{
    match known {
        Some(()) => row,
        None => None,
    }
}
