ghost use Rattle.std.specs.Prelude.{◌≡◌, IfOk};

use std::alloc::{AllocError, Global};
use wb_base::{Duplicate, List};
use wb_diagram::{Look, Problem};

/// An equal look, with memory of its own.
pub fn copy_of_look(alloc: Global, look: &Look) -> Result<Look, AllocError>
    ensures { IfOk result (λ copy. copy ≡ look.now) }
{
    Ok(Look {
        style: look.style,
        shape: look.shape.copy(alloc)?,
        color: look.color.copy(alloc)?,
        label: look.label.copy(alloc)?,
    })
}

/// The same problems, with memory of their own.
pub fn copy_of_problems(alloc: Global, problems: &[Problem]) -> Result<List<Problem>, AllocError>
    ensures { IfOk result (λ copies. copies ≡ problems.now) }
{
    let mut copies = Vec::new(alloc);
    for problem in problems {
        copies.push(copy_of_problem(alloc, problem)?)?;
    }
    Ok(List::from_vec(copies))
}

fn copy_of_problem(alloc: Global, problem: &Problem) -> Result<Problem, AllocError>
    ensures { IfOk result (λ copy. copy ≡ problem.now) }
{
    Ok(Problem {
        at: problem.at.copy(alloc)?,
        fault: problem.fault.copy(alloc)?,
    })
}
