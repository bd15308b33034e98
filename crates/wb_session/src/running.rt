ghost use Rattle.wb_session.specs.Answering.{Answers};
ghost use Rattle.wb_session.specs.Steps.{step};

use crate::accepted::Accepted;
use crate::refusal::Refusal;
use crate::session::Session;
use std::alloc::Global;
use wb_aql_eval::Evaluator;
use wb_diagram::Command;

impl<E: Evaluator> Session<E> {
    /// Runs a command. A refusal leaves the session as it was.
    pub fn command(
        &mut self,
        alloc: Global,
        command: &Command,
        steps: &mut E,
    ) -> Result<Accepted, Refusal>
        ensures { Answers (step E.outcome_by self.old command.now) result self.old self.new }
    {
        let planned = self.plan(alloc, command, steps)?;
        Ok(self.accept(planned))
    }
}
