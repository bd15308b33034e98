ghost use Rattle.std.specs.Prelude.{◌≡◌, IfOk, Some};
ghost use Rattle.wb_spec_check.specs.Checked.{IsCheckedBy};
ghost use Rattle.wb_program.specs.Drawing.{picture_of};
ghost use Rattle.wb_program.specs.Opening.{drawing, picture_from};
ghost use Rattle.wb_program.specs.Steps.{Went, Reaches};
ghost use Rattle.wb_program.specs.Tasks.{shown_sources};

use crate::answer::{Answer, Ending, diagram_too_large, ended_by, no_root_element};
use crate::checking::take_checked;
use crate::opening::{take_metamodel, take_model};
use crate::status::Status;
use crate::words::Sources;
use std::alloc::{AllocError, Global};
use wb_model::Model;
use wb_outer::{Bytes, Shelf, Steps};
use wb_session::{OpenRefusal, Session};
use wb_spec_check::CheckedViewpoint;

/// Takes the three files in turn, and draws the model under the viewpoint.
pub fn draw<H: Shelf, L>(
    alloc: Global,
    shelf: &mut H,
    sources: Sources<'_>,
    steps: &mut Steps<L>,
) -> Result<Answer, Ending>
    ensures { Went result (drawing (shown_sources sources.entry)) (H.told shelf.old) (H.told shelf.new) }
{
    let metamodel = take_metamodel(alloc, shelf, sources.metamodel)?;
    let spec = take_checked(alloc, shelf, sources.viewpoint, &metamodel)?;
    let model = take_model(alloc, shelf, sources.model, metamodel)?;
    picture_from(alloc, sources.model, spec, model, steps)
}

/// The picture of a session over a model, which stands in the file of this name.
fn picture_from<L>(
    alloc: Global,
    name: &[u8],
    spec: CheckedViewpoint,
    model: Model,
    steps: &mut Steps<L>,
) -> Result<Answer, Ending>
    requires { IsCheckedBy model.metamodel spec }
    ensures { Reaches result (Some (picture_from name.now spec model)) }
{
    match Session::open(alloc, spec, model, steps) {
        Ok(session) => Ok(picture_answer(alloc, &session)?),
        Err(OpenRefusal::NoRoot) => Err(ended_by(no_root_element(alloc, name))),
        Err(OpenRefusal::TooLarge) => Err(ended_by(diagram_too_large(alloc))),
        Err(OpenRefusal::NoMemory) => Err(Ending::NoMemory),
    }
}

/// What is served of a session, and LF.
fn picture_answer<L>(alloc: Global, session: &Session<Steps<L>>) -> Result<Answer, AllocError>
    ensures { IfOk result (λ answer. answer ≡ picture_of session.now) }
{
    let mut text = session.served(alloc)?.into_bytes();
    text.push(b'\n')?;
    Ok(Answer {
        status: Status::Done,
        text: Bytes::from_vec(text),
    })
}
