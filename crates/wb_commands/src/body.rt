ghost use Rattle.serde_json.specs.View.{view};
ghost use Rattle.wb_base.specs.Answering.{AsDefined};
ghost use Rattle.wb_json.specs.Form.{Gives};
ghost use Rattle.wb_commands.specs.Body.{body, command_in, refusal_of};
ghost use Rattle.wb_commands.specs.Forms.{command_of};

use crate::commands::read_value;
use crate::refusal::BodyRefusal;
use std::alloc::Global;
use wb_diagram::Command;
use wb_json::{Value, Wrong, parse_json};

/// The command that the bytes of a body are.
#[tactic(auto, unfolding(crate::specs::Body::command_in))]
pub fn read_command(alloc: Global, bytes: &[u8]) -> Result<Command, BodyRefusal>
    ensures { AsDefined refusal_of (command_in bytes.now) result }
{
    match parse_json(alloc, bytes)? {
        Some(value) => read_body(alloc, &value),
        None => Err(BodyRefusal::BadBody),
    }
}

fn read_body(alloc: Global, value: &Value) -> Result<Command, BodyRefusal>
    ensures { AsDefined refusal_of (body (command_of (view value.now))) result }
{
    placeless(read_value(alloc, value))
}

/// What was found, where it does not matter which place is wrong.
fn placeless(found: Result<Command, Wrong>) -> Result<Command, BodyRefusal>
    ensures { (given : _) → Gives found given → AsDefined refusal_of (body given) result }
{
    match found {
        Ok(command) => Ok(command),
        Err(Wrong::At(_)) => Err(BodyRefusal::BadBody),
        Err(Wrong::NoMemory) => Err(BodyRefusal::NoMemory),
    }
}
