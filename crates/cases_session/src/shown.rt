//! What stands: the diagram that is served, and the model.
use crate::cases::Evaluations;
use md5::{Digest, Md5};
use std::alloc::{AllocError, Global};
use wb_base::Text;
use wb_json::Wrong;
use wb_model_json::write_model;
use wb_outer::Steps;
use wb_session::Session;

/// How many bytes of a text are printed as they are.
const LONG: usize = 16384;

/// Puts a line with the MD5 of both texts last.
pub fn push_digests(
    alloc: Global,
    shown: &mut String,
    session: &Session<Steps<Evaluations>>,
) -> Result<(), Wrong> {
    let diagram = digest(&session.served(alloc)?);
    let model = digest(&write_model(alloc, session.model())?);
    Ok(write!(shown, "diagram {diagram:032x} model {model:032x}\n")?)
}

fn digest(text: &Text) -> u128 {
    u128::from_be_bytes(Md5::digest(text.as_slice()))
}

/// Puts both texts last, each as a line.
pub fn push_look(
    alloc: Global,
    shown: &mut String,
    session: &Session<Steps<Evaluations>>,
) -> Result<(), Wrong> {
    push_text(shown, &session.served(alloc)?)?;
    push_text(shown, &write_model(alloc, session.model())?)?;
    Ok(())
}

/// The text itself, or of a long one the number of its bytes and its MD5.
fn push_text(shown: &mut String, text: &Text) -> Result<(), AllocError> {
    let size = text.as_slice().len();
    if size > LONG {
        return write!(shown, "{size} md5 {:032x}\n", digest(text));
    }
    shown.push_str(text.as_str())?;
    shown.push('\n')
}
