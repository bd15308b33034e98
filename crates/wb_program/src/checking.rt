ghost use Rattle.std.specs.Prelude.{Some, IfOk};
ghost use Rattle.wb_spec_check.specs.Checked.{checked, IsCheckedBy};
ghost use Rattle.wb_program.specs.Checking.{or_bad};
ghost use Rattle.wb_program.specs.Steps.{Went, Reaches};
ghost use Rattle.wb_program.specs.Opening.{checked_under, checking};

use crate::answer::{Answer, Ending};
use crate::opening::{take_metamodel, take_viewpoint};
use crate::problem_lines::{check_answer, first_problem};
use std::alloc::Global;
use wb_metamodel::Metamodel;
use wb_outer::Shelf;
use wb_spec_check::{CheckedViewpoint, Checking, check_viewpoint};
use wb_viewpoint::Viewpoint;

/// Takes the metamodel and the viewpoint in turn, and tells what is wrong with the viewpoint.
pub fn check<H: Shelf>(
    alloc: Global,
    shelf: &mut H,
    metamodel_name: &[u8],
    viewpoint_name: &[u8],
) -> Result<Answer, Ending>
    ensures { Went result (checking metamodel_name.now viewpoint_name.now) (H.told shelf.old) (H.told shelf.new) }
{
    let metamodel = take_metamodel(alloc, shelf, metamodel_name)?;
    let viewpoint = take_viewpoint(alloc, shelf, viewpoint_name)?;
    Ok(check_answer(alloc, viewpoint, &metamodel)?)
}

/// Takes the viewpoint's file, sizes it, reads it and checks it over the metamodel.
pub fn take_checked<H: Shelf>(
    alloc: Global,
    shelf: &mut H,
    name: &[u8],
    metamodel: &Metamodel,
) -> Result<CheckedViewpoint, Ending>
    ensures went { Went result (checked_under metamodel.now name.now) (H.told shelf.old) (H.told shelf.new) }
    ensures checked { IfOk result (IsCheckedBy metamodel.now) }
{
    let viewpoint = take_viewpoint(alloc, shelf, name)?;
    good_viewpoint(alloc, name, viewpoint, metamodel)
}

/// The checked viewpoint, or the answer with its first problem.
fn good_viewpoint(
    alloc: Global,
    name: &[u8],
    viewpoint: Viewpoint,
    metamodel: &Metamodel,
) -> Result<CheckedViewpoint, Ending>
    ensures reaches { Reaches result (Some (or_bad name.now viewpoint (checked metamodel.now viewpoint))) }
    ensures checked { IfOk result (IsCheckedBy metamodel.now) }
{
    match check_viewpoint(alloc, viewpoint, metamodel)? {
        Checking::Good(checked) => Ok(checked),
        Checking::Bad(problems) => Err(first_problem(alloc, name, problems.as_slice())),
    }
}
