ghost use Rattle.std.specs.Prelude.{◌≡◌, ◌<◌, None, IfOk, length};
ghost use Rattle.wb_aql_eval.specs.Outcomes.{Binds};
ghost use Rattle.wb_arguments.specs.Arguments.{on};
ghost use Rattle.wb_tools.specs.Readiness.{variables_of};
ghost use Rattle.wb_session.specs.Answering.{Gives, of_tool};
ghost use Rattle.wb_session.specs.Tries.{ground, run_asked, used};
ghost use Rattle.wb_session.specs.declared.turn.Turn.TheVariants.{Forward as Onward};
ghost use Rattle.wb_session.specs.invariants.Keeping.{GoesOn, tried_of};

use crate::editing::metamodel_is_sound;
use crate::entries::TriedState;
use crate::refusal::Refusal;
use crate::session::Session;
use crate::turn::Turn;
use std::alloc::Global;
use wb_aql_eval::Evaluator;
use wb_arguments::{AskedTool, Ground, asked_tool};
use wb_base::Duplicate;
use wb_diagram::Arguments;
use wb_marks::Marks;
use wb_model::Model;
use wb_tools::{ToolRefusal, run_tool};

impl<E: Evaluator> Session<E> {
    /// The tool of a name is run on a copy, with these arguments.
    pub(crate) fn try_tool(
        &self,
        alloc: Global,
        name: &str,
        arguments: &Arguments,
        steps: &mut E,
    ) -> Result<TriedState, Refusal>
        ensures given { Gives tried_of (used E.outcome_by self.now name.now arguments.now) result }
        ensures goes_on { IfOk result (GoesOn self.now) }
    {
        let asked = asked_tool(alloc, &self.spec, &self.ground(), name, arguments)?;
        self.run_asked(alloc, &asked, steps)
    }

    /// What arguments of tools may name.
    fn ground(&self) -> Ground<'_>
        ensures { on result ≡ ground E.outcome_by self.now }
    {
        Ground {
            nodes: self.nodes(),
            edges: self.edges(),
            root: self.root,
        }
    }

    fn run_asked(
        &self,
        alloc: Global,
        asked: &AskedTool,
        steps: &mut E,
    ) -> Result<TriedState, Refusal>
        requires tool { asked.now.tool < length self.now.spec.0.tools }
        requires binds { Binds self.now.body.model.metamodel (variables_of self.now.spec asked.now.tool) asked.now.env }
        ensures given { Gives tried_of (run_asked E.outcome_by self.now asked.now) result }
        ensures goes_on { IfOk result (GoesOn self.now) }
    {
        metamodel_is_sound(&self.model);
        let mut model = self.model.copy(alloc)?;
        let marks = self.marks.copy(alloc)?;
        match run_tool(
            alloc,
            &self.spec,
            asked.tool,
            &asked.env,
            asked.context,
            &mut model,
            steps,
        ) {
            Ok(_) => Ok(onward(model, marks)),
            Err(refusal) => Err(tool_refusal(refusal)),
        }
    }
}

// The model that a tool made under these marks, a step further.
fn onward(model: Model, marks: Marks) -> TriedState
    ensures { result ≡ record { model = model; marks = marks; created = None; turn = Onward } }
{
    TriedState {
        model,
        marks,
        created: None,
        turn: Turn::Forward,
    }
}

// The refusal of a tool, as that of a command.
fn tool_refusal(refusal: ToolRefusal) -> Refusal
    ensures { result ≡ of_tool refusal }
{
    match refusal {
        ToolRefusal::NoMemory => Refusal::NoMemory,
        _ => Refusal::Tool(refusal),
    }
}
