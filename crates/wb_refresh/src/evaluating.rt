ghost use Rattle.std.specs.Prelude.{◌≡◌, IfOk};
ghost use Rattle.wb_aql_values.specs.Bounds.{IsBounded};
ghost use Rattle.wb_aql_values.specs.Runs.{answered};
ghost use Rattle.wb_refresh.specs.Tables.{Keeps, row_with};

use crate::table::Table;
use std::alloc::Global;
use wb_answers::{Answers, Stop};
use wb_aql_eval::{Evaluator, Outcome};
use wb_aql_values::Answer;
use wb_base::Duplicate;
use wb_diagram::Unit;

/// Answers by evaluating: what is asked is evaluated, and kept in a table.
#[derive(Drop)]
pub struct Evaluating<'a, 'b, E: Evaluator> {
    pub steps: &'a mut E,
    pub table: &'a mut Table<'b>,
}

impl<E: Evaluator> Answers for Evaluating<'_, '_, E> {
    ghost use Rattle.std.specs.Prelude.{[], ◌∷◌};
    ghost use Rattle.wb_refresh.specs.Tables.{seen_by};

    ghost seen = { λ p. seen_by E.outcome_by p.table.now (E.count p.steps.now) (p.steps.ghost_name ∷ p.table.ghost_name ∷ []) };

    fn answer(&mut self, alloc: Global, unit: &Unit) -> Result<Answer, Stop> {
        let outcome = self.table.evaluate(alloc, unit, self.steps)?;
        keep(alloc, self.table, unit, outcome)
    }
}

// Keeps the outcome of a unit, and answers it.
fn keep(alloc: Global, table: &mut Table<'_>, unit: &Unit, outcome: Outcome) -> Result<Answer, Stop>
    requires { IfOk (answered outcome.answer) (IsBounded table.old.setting.model.metamodel) }
    ensures value { IfOk result (λ a. a ≡ outcome.answer) }
    ensures keeps { Keeps table.old (row_with (unit.now, outcome)) result table.new }
{
    let answer = outcome.answer.copy(alloc)?;
    let unit = unit.copy(alloc)?;
    table.keep(unit, outcome)?;
    if table.is_over() {
        return Err(Stop::TooLarge);
    }
    Ok(answer)
}
