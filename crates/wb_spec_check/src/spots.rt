ghost use Rattle.std.specs.Prelude.{◌≡◌, ℕ, List, IfOk, codes, take};
ghost use Rattle.wb_spec_check.specs.Findings.{own_name};
ghost use Rattle.wb_spec_check.specs.Mappings.{expression_at};
ghost use Rattle.wb_spec_check.specs.Places.{place_of, ◌▸◌};
ghost use Rattle.wb_spec_check.specs.Validated.{at, optional};
ghost use Rattle.wb_spec_check.specs.invariants.Findings.{Finds};
ghost use Rattle.wb_spec_check.specs.invariants.Known.{Numbers, place_in};
ghost use Rattle.wb_spec_check.specs.invariants.Reports.{Reports, Adds, AddsSome};
ghost use Rattle.wb_expressions.specs.Codes.{code_of};

use crate::own_names::own_name;
use crate::path::{Path, place};
use crate::problem::Problem;
use std::alloc::{AllocError, Global};
use wb_base::{List, Text};
use wb_ecore::NumberedNames;
use wb_expressions::{Checked, ExprRefusal, ProblemCode, read_expression};
use wb_metamodel::Metamodel;
use wb_viewpoint::ExpressionText;

/// One more problem, behind those that were told.
fn tell(
    alloc: Global,
    problems: &mut List<Problem>,
    path: &Path<'_>,
    code: ProblemCode,
    detail: &str,
) -> Result<(), AllocError>
    ensures { IfOk result (λ _. Adds (place_of path.now) (code, detail.now) problems.old problems.new) }
{
    let place = place(alloc, path)?;
    let detail = Text::from_str(alloc, detail)?;
    problems.push(Problem {
        place,
        code,
        detail,
    })?;
    Ok(())
}

/// What a name at a place names, or its problem.
pub(crate) fn name_at<T: Drop>(
    alloc: Global,
    problems: &mut List<Problem>,
    path: &Path<'_>,
    name: &str,
    found: Result<T, ProblemCode>,
) -> Result<Option<T>, AllocError>
    ensures { (given : _) → Finds name.now found given → Reports (at (place_of path.now) given) problems.old result problems.new }
{
    match found {
        Ok(found) => Ok(Some(found)),
        Err(code) => {
            tell(alloc, problems, path, code, name)?;
            Ok(None)
        }
    }
}

/// The name of an item, which stands at a place: no item before it has the same.
/// `first` has the first place of each name of the list.
pub(crate) fn own_name_at(
    alloc: Global,
    problems: &mut List<Problem>,
    path: &Path<'_>,
    first: &NumberedNames,
    number: usize,
    name: &str,
) -> Result<Option<()>, AllocError>
    ensures { (all earlier : List (List ℕ)) → Numbers first.now (place_in all) → earlier ≡ take number all → Reports (at (place_of path.now ▸ codes "name") (own_name earlier name.now)) problems.old result problems.new }
{
    name_at(
        alloc,
        problems,
        &Path::Member(path, "name"),
        name,
        own_name(first, number, name),
    )
}

/// The expression at a place with these variables in scope, or its problem.
pub(crate) fn expression_at(
    alloc: Global,
    problems: &mut List<Problem>,
    metamodel: &Metamodel,
    scope: &[Text],
    path: &Path<'_>,
    text: &ExpressionText,
) -> Result<Option<Checked>, AllocError>
    ensures { Reports (expression_at metamodel.now scope.now (place_of path.now) text.now) problems.old result problems.new }
{
    match read_expression(alloc, text.as_str().as_bytes(), scope, metamodel) {
        Ok(checked) => Ok(Some(checked)),
        Err(refusal) => {
            tell_refusal(alloc, problems, path, &refusal)?;
            Ok(None)
        }
    }
}

/// The problem of an expression.
fn tell_refusal(
    alloc: Global,
    problems: &mut List<Problem>,
    path: &Path<'_>,
    refusal: &ExprRefusal,
) -> Result<(), AllocError>
    ensures { IfOk result (λ _. AddsSome (place_of path.now) (code_of refusal.now) problems.old problems.new) }
{
    match refusal {
        ExprRefusal::At(code, detail) => tell(alloc, problems, path, *code, detail.as_str()),
        ExprRefusal::NoMemory => Err(AllocError),
    }
}

/// The same where the expression may be absent.
pub(crate) fn optional_expression_at(
    alloc: Global,
    problems: &mut List<Problem>,
    metamodel: &Metamodel,
    scope: &[Text],
    path: &Path<'_>,
    text: &Option<ExpressionText>,
) -> Result<Option<Option<Checked>>, AllocError>
    ensures { Reports (optional (expression_at metamodel.now scope.now (place_of path.now)) text.now) problems.old result problems.new }
{
    match text {
        None => Ok(Some(None)),
        Some(text) => match expression_at(alloc, problems, metamodel, scope, path, text)? {
            Some(checked) => Ok(Some(Some(checked))),
            None => Ok(None),
        },
    }
}
