ghost use Rattle.serde_json.specs.View.{view};
ghost use Rattle.wb_json.specs.Form.{Gives};
ghost use Rattle.wb_commands.specs.Forms.{tool_of};

use crate::arguments::GivenArguments;
use crate::members::name_at;
use std::alloc::Global;
use wb_diagram::Action;
use wb_json::{Value, Wrong, listed, needed};

/// A tool's run.
pub(crate) fn read_tool(alloc: Global, value: &Value) -> Result<Action, Wrong>
    ensures { Gives result (tool_of (view value.now)) }
{
    listed(alloc, value, &["command", "revision", "tool", "arguments"])?;
    let tool = name_at(alloc, value, "tool")?;
    let arguments: GivenArguments = needed(alloc, value, "arguments")?;
    Ok(Action::Tool {
        tool,
        arguments: arguments.into_arguments(),
    })
}
