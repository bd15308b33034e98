ghost use Rattle.std.specs.List.{IsDistinct};
ghost use Rattle.std.specs.Prelude.{◌≡◌, ◌+◌, IfOk};
ghost use Rattle.wb_aql_check.specs.Checked.{IsChecked};
ghost use Rattle.wb_aql_values.specs.Bounds.{IsBounded};
ghost use Rattle.wb_aql_values.specs.Cells.{same_cell};
ghost use Rattle.wb_aql_values.specs.Runs.{answered};
ghost use Rattle.wb_aql_eval.specs.Outcomes.{Binds, outcome_of, ran};
ghost use Rattle.wb_aql_eval.specs.ReadLaws.{alike_outcomes};

use crate::env::{Env, Outcome};
use crate::evaluation::eval;
use std::alloc::{AllocError, Global};
use wb_aql_check::Checked;
use wb_model::Model;
use wb_outer::Steps;

/// What finds the outcomes of expressions. The type fixes them; each evaluation is counted.
pub trait Evaluator {
    ghost use Rattle.std.specs.Prelude.{List, ℕ};
    ghost use Rattle.wb_store.specs.Contents.{Contents};
    ghost use Rattle.wb_aql_check.specs.declared.checked.Origin.{Origin};
    ghost use Rattle.wb_aql_values.specs.declared.values.Value.{Value};
    ghost use Rattle.wb_aql_values.specs.Runs.{Ran};
    ghost use Rattle.wb_aql_eval.specs.declared.env.Env.{Env};
    ghost use Rattle.wb_aql_eval.specs.ReadCells.{Alike};

    ghost outcome_by: { Origin × List (List ℕ) → Env → Contents → Ran Value };

    ghost count: { Self → ℕ };

    /// The outcome that the type fixes; it is counted also without memory.
    fn evaluate(
        &mut self,
        alloc: Global,
        e: &Checked,
        env: &Env,
        model: &Model,
    ) -> Result<Outcome, AllocError>
        requires bound { Binds model.now.metamodel e.now.1 env.now }
        requires checked { IsChecked model.now.metamodel e.now }
        ensures outcome { IfOk result (λ outcome. outcome_by e.now env.now model.now ≡ ran outcome) }
        ensures bounded { IfOk result (λ outcome. IfOk (answered outcome.answer) (IsBounded model.now.metamodel)) }
        ensures distinct { IfOk result (λ outcome. IsDistinct same_cell outcome.reads) }
        ensures counted { count self.new ≡ count self.old + 1 };

    ghost decides: { (checked : Origin × List (List ℕ)) (env : Env) (a b : Contents) → Alike a b (outcome_by checked env a).reads → outcome_by checked env b ≡ outcome_by checked env a };
}

impl<L> Evaluator for Steps<L> {
    ghost outcome_by = { outcome_of };

    ghost count = { λ s. s };

    ghost decides = { alike_outcomes };

    fn evaluate(
        &mut self,
        alloc: Global,
        e: &Checked,
        env: &Env,
        model: &Model,
    ) -> Result<Outcome, AllocError> {
        eval(alloc, e, env, model, self)
    }
}
