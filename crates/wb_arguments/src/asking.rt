ghost use Rattle.std.specs.Prelude.{◌≡◌, ◌<◌, ◌≤◌, Some, length, position, IfOk, IfSome};
ghost use Rattle.wb_base.specs.Answering.{AsDefined};
ghost use Rattle.wb_base.specs.Names.{same_name};
ghost use Rattle.wb_metamodel.specs.Metamodel.{Metamodel};
ghost use Rattle.wb_aql_eval.specs.Outcomes.{Binds};
ghost use Rattle.wb_viewpoint.specs.declared.tools.Tool.{Tool};
ghost use Rattle.wb_tools.specs.Readiness.{variables_of};
ghost use Rattle.wb_arguments.specs.Arguments.{asked, kind_of, named, on, tool_named};

use crate::ground::Ground;
use crate::kinds::bound;
use crate::refusal::ArgumentRefusal;
use std::alloc::Global;
use wb_aql_eval::Env;
use wb_diagram::Arguments;
use wb_json::Name;
use wb_metamodel::ObjectId;
use wb_spec_check::CheckedViewpoint;
use wb_viewpoint::{Tool, ToolKind};

/// A tool that may run: its number, the variables of its kind without `self`, and the first context.
#[derive(Drop)]
pub struct AskedTool {
    pub tool: u32,
    pub env: Env,
    pub context: ObjectId,
}

/// The tool that a command asks for by its name, with what the arguments say.
#[tactic(auto, unfolding(crate::specs::Arguments::asked))]
pub fn asked_tool(
    alloc: Global,
    spec: &CheckedViewpoint,
    ground: &Ground<'_>,
    name: &str,
    arguments: &Arguments,
) -> Result<AskedTool, ArgumentRefusal>
    ensures given { AsDefined named (asked spec.now (on ground.now) name.now arguments.now) result }
    ensures tool { IfOk result (λ it. it.tool < length spec.now.0.tools) }
    ensures binds { (mm : Metamodel) → IfOk result (λ it. Binds mm (variables_of spec.now it.tool) it.env) }
{
    let Some(tool) = tool_named(spec, name) else {
        return Err(ArgumentRefusal::UnknownTool);
    };
    let kind = kind_of(spec, tool);
    let (env, context) = bound(alloc, ground, kind, arguments)?;
    Ok(AskedTool { tool, env, context })
}

// The number of the tool of this name.
#[tactic(auto, unfolding(crate::specs::Arguments::tool_named))]
fn tool_named(spec: &CheckedViewpoint, name: &str) -> Option<u32>
    ensures same { result ≡ tool_named spec.now name.now }
    ensures within { IfSome result (λ it. it < length spec.now.0.tools) }
{
    number(tool_place(tools_of(spec), name))
}

fn kind_of(spec: &CheckedViewpoint, tool: u32) -> ToolKind
    requires { tool < length spec.now.0.tools }
    ensures { kind_of spec.now tool ≡ Some result }
{
    tools_of(spec)[tool as usize].kind
}

fn tools_of(spec: &CheckedViewpoint) -> &[Tool]
    ensures same { result.now ≡ spec.now.0.tools }
    ensures few { length result.now ≤ 256 }
{
    spec.viewpoint().content().tools.as_slice()
}

fn tool_place(tools: &[Tool], name: &str) -> Option<usize>
    ensures { result ≡ position (λ (it : Tool). same_name it.name name.now) tools.now }
{
    tools.iter().position(|tool| is_name(&tool.name, name))
}

fn is_name(name: &Name, text: &str) -> bool
    ensures { result ≡ same_name name.now text.now }
{
    name.as_str().as_bytes() == text.as_bytes()
}

// A place among few, if one was found.
fn number(place: Option<usize>) -> Option<u32>
    requires { IfSome place (λ it. it < 256) }
    ensures { result ≡ place }
{
    match place {
        Some(place) => Some(place as u32),
        None => None,
    }
}
