ghost use Rattle.std.specs.Prelude.{◌≡◌, IfOk};
ghost use Rattle.wb_diagram.specs.declared.commands.Action.TheVariants as a;
ghost use Rattle.wb_session.specs.Answering.{Gives};
ghost use Rattle.wb_session.specs.Tries.{filtered, layered, tried};
ghost use Rattle.wb_session.specs.invariants.Keeping.{GoesOn, tried_of};

use crate::entries::TriedState;
use crate::refusal::Refusal;
use crate::session::Session;
use std::alloc::Global;
use wb_aql_eval::Evaluator;
use wb_targets::{additional_layer_named, filter_named};

impl<E: Evaluator> Session<E> {
    /// A layer beside the first is switched.
    #[tactic(auto, unfolding(crate::specs::Tries::tried))]
    pub(crate) fn try_layer(
        &self,
        alloc: Global,
        layer: &str,
        active: bool,
    ) -> Result<TriedState, Refusal>
        ensures given { Gives tried_of (tried E.outcome_by self.now (a.Layer layer.now active)) result }
        ensures goes_on { IfOk result (GoesOn self.now) }
    {
        let Some(number) = additional_layer_named(&self.spec, layer) else {
            return Err(Refusal::UnknownLayer);
        };
        let marks = self.marks.switch_layer(alloc, number, active)?;
        self.remarked(alloc, marks)
    }

    /// A filter is switched.
    #[tactic(auto, unfolding(crate::specs::Tries::tried))]
    pub(crate) fn try_filter(
        &self,
        alloc: Global,
        filter: &str,
        active: bool,
    ) -> Result<TriedState, Refusal>
        ensures given { Gives tried_of (tried E.outcome_by self.now (a.Filter filter.now active)) result }
        ensures goes_on { IfOk result (GoesOn self.now) }
    {
        let Some(number) = filter_named(&self.spec, filter) else {
            return Err(Refusal::UnknownFilter);
        };
        let marks = self.marks.switch_filter(alloc, number, active)?;
        self.remarked(alloc, marks)
    }
}
