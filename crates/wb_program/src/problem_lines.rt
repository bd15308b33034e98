ghost use Rattle.std.specs.Prelude.{◌≡◌, ◌++◌, ◌∷◌, List, IfOk, OnOk, codes};
ghost use Rattle.std.specs.List.{flat_map};
ghost use Rattle.wb_expressions.specs.Codes.{code_name};
ghost use Rattle.wb_spec_check.specs.Checked.{checked};
ghost use Rattle.wb_spec_check.specs.declared.problem.Problem.{Problem};
ghost use Rattle.wb_program.specs.declared.status.Status.TheVariants.{Done, Problems};
ghost use Rattle.wb_program.specs.Answers as answers;
ghost use Rattle.wb_program.specs.Checking.{check_answer, problem_line, spaced};
ghost use Rattle.wb_program.specs.Steps.{EndsWith};

use crate::answer::{Answer, Ending, bad, ended_by, push_word};
use crate::status::Status;
use std::alloc::{AllocError, Global};
use wb_metamodel::Metamodel;
use wb_outer::Bytes;
use wb_spec_check::{Checking, Problem, check_viewpoint};
use wb_viewpoint::Viewpoint;

/// What `check` prints of a viewpoint: `ok`, or a line for each problem.
pub fn check_answer(
    alloc: Global,
    viewpoint: Viewpoint,
    metamodel: &Metamodel,
) -> Result<Answer, AllocError>
    ensures { IfOk result (λ answer. answer ≡ check_answer (checked metamodel.now viewpoint)) }
{
    match check_viewpoint(alloc, viewpoint, metamodel)? {
        Checking::Good(_) => ok(alloc),
        Checking::Bad(problems) => problem_lines(alloc, problems.as_slice()),
    }
}

fn ok(alloc: Global) -> Result<Answer, AllocError>
    ensures { IfOk result (λ answer. answer ≡ answers.line Done (codes "ok")) }
{
    let text = Bytes::from_slice(alloc, b"ok\n")?;
    Ok(Answer {
        status: Status::Done,
        text,
    })
}

fn problem_lines(alloc: Global, problems: &[Problem]) -> Result<Answer, AllocError>
    ensures { IfOk result (λ answer. answer ≡ record { status = Problems; text = flat_map problem_line problems.now }) }
{
    let mut text = Vec::new(alloc);
    for problem in problems {
        push_problem(&mut text, problem)?;
    }
    Ok(Answer {
        status: Status::Problems,
        text: Bytes::from_vec(text),
    })
}

/// Puts the line of a problem last.
#[tactic(auto, unfolding(crate::specs::Checking::problem_line))]
fn push_problem(text: &mut Vec<u8>, problem: &Problem) -> Result<(), AllocError>
    ensures { OnOk result (text.new.items ≡ text.old.items ++ problem_line problem.now) }
{
    text.extend_from_slice(problem.place.as_slice())?;
    push_word(text, problem.code.name())?;
    push_detail(text, problem.detail.as_str())?;
    text.push(b'\n')?;
    Ok(())
}

/// Puts a space and a detail last, if there is one.
fn push_detail(text: &mut Vec<u8>, detail: &str) -> Result<(), AllocError>
    ensures { OnOk result (text.new.items ≡ text.old.items ++ spaced detail.now) }
{
    if detail.is_empty() {
        return Ok(());
    }
    push_word(text, detail)
}

/// The ending by a viewpoint with problems, of which the first is told.
pub fn first_problem(alloc: Global, name: &[u8], problems: &[Problem]) -> Ending
    ensures { (first : Problem) (more : List Problem) → problems.now ≡ first ∷ more → EndsWith result (answers.bad name.now first.place (code_name first.code)) }
{
    match problems {
        [first, ..] => ended_by(bad(alloc, name, first.place.as_str(), first.code.name())),
        [] => Ending::NoMemory,
    }
}
