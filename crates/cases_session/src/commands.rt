//! A command's reply: its status and its body.
use crate::cases::Evaluations;
use crate::shown::push_digests;
use std::alloc::{AllocError, Global};
use wb_commands::{BodyRefusal, read_command};
use wb_diagram::Command;
use wb_json::{Value, Wrong, write_json};
use wb_outer::Steps;
use wb_session::{Accepted, Refusal, Session, write_refusal};

/// Puts the reply to a command last, and the digests of what stands after it.
pub fn push_command(
    alloc: Global,
    shown: &mut String,
    body: &Value,
    session: &mut Session<Steps<Evaluations>>,
    steps: &mut Steps<Evaluations>,
) -> Result<(), Wrong> {
    let body = write_json(alloc, body)?;
    push_reply(alloc, shown, body.as_slice(), session, steps)?;
    push_digests(alloc, shown, session)
}

fn push_reply(
    alloc: Global,
    shown: &mut String,
    body: &[u8],
    session: &mut Session<Steps<Evaluations>>,
    steps: &mut Steps<Evaluations>,
) -> Result<(), Wrong> {
    match read_command(alloc, body) {
        Ok(command) => push_answer(alloc, shown, &command, session, steps),
        Err(BodyRefusal::BadBody) => Ok(shown.push_str("400 {\"refusal\":\"bad_body\"}\n")?),
        Err(BodyRefusal::NoMemory) => Err(Wrong::NoMemory),
    }
}

fn push_answer(
    alloc: Global,
    shown: &mut String,
    command: &Command,
    session: &mut Session<Steps<Evaluations>>,
    steps: &mut Steps<Evaluations>,
) -> Result<(), Wrong> {
    match session.command(alloc, command, steps) {
        Ok(accepted) => Ok(push_accepted(shown, accepted)?),
        Err(refusal) => push_refusal(alloc, shown, refusal, session.revision()),
    }
}

fn push_accepted(shown: &mut String, accepted: Accepted) -> Result<(), AllocError> {
    let revision = accepted.revision;
    match accepted.created {
        Some(object) => write!(
            shown,
            "200 {{\"created\":{},\"revision\":{revision}}}\n",
            object.0
        ),
        None => write!(shown, "200 {{\"revision\":{revision}}}\n"),
    }
}

fn push_refusal(
    alloc: Global,
    shown: &mut String,
    refusal: Refusal,
    revision: u64,
) -> Result<(), Wrong> {
    let status = match refusal {
        Refusal::NoMemory => return Err(Wrong::NoMemory),
        Refusal::Stale => "409 ",
        _ => "422 ",
    };
    let body = write_refusal(alloc, refusal, revision)?;
    shown.push_str(status)?;
    push_line(shown, body.as_str())
}

fn push_line(shown: &mut String, line: &str) -> Result<(), Wrong> {
    shown.push_str(line)?;
    shown.push('\n')?;
    Ok(())
}
