//! What is true of the reads of every outcome. These functions do nothing when they run.

ghost use Rattle.std.specs.Prelude.{◌≡◌, ℕ, List};
ghost use Rattle.std.specs.List.{IsDistinct};
ghost use Rattle.wb_store.specs.Contents.{Contents};
ghost use Rattle.wb_aql_check.specs.declared.checked.Origin.{Origin};
ghost use Rattle.wb_aql_eval.specs.declared.env.Env.{Env};
ghost use Rattle.wb_aql_eval.specs.Outcomes.{outcome_of};
ghost use Rattle.wb_aql_eval.specs.ReadCells.{Alike};
ghost use Rattle.wb_aql_values.specs.Cells.{same_cell};

use crate::env::Env;
use wb_aql_check::Checked;
use wb_model::Model;

/// No cell is read twice.
pub fn reads_are_without_repeats()
    ensures { (checked : Origin × List (List ℕ)) (env : Env) (m : Contents) → IsDistinct same_cell (outcome_of checked env m).reads }
{}

/// Where the one model is like the other in all cells that are read in it, the outcome is the same in both.
pub fn reads_decide(e: &Checked, env: &Env, a: &Model, b: &Model)
    ensures { Alike a.now b.now (outcome_of e.now env.now a.now).reads → outcome_of e.now env.now b.now ≡ outcome_of e.now env.now a.now }
{}
