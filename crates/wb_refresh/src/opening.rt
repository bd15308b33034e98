ghost use Rattle.std.specs.Prelude.{◌≡◌, ◌+◌, ◌≤◌, true, false, length, IfOk, IfErr, OnOk};
ghost use Rattle.wb_spec_check.specs.Checked.{IsCheckedBy};
ghost use Rattle.wb_answers.specs.declared.answers.Stop.TheVariants.{TooLarge};
ghost use Rattle.wb_refresh.specs.Declarations.{AreDeclared};
ghost use Rattle.wb_refresh.specs.Endings.{Ends};
ghost use Rattle.wb_refresh.specs.Openings.{IsOpened, all_units, is_too_large};
ghost use Rattle.wb_refresh.specs.Outcomes.{told};
ghost use Rattle.wb_refresh.specs.Subjects.{scene, subject, subject_in};
ghost use Rattle.wb_refresh.specs.Tables.{none_evaluated};

use crate::declared::Declared;
use crate::declaring::declare;
use crate::evaluating::Evaluating;
use crate::refresh::Refresh;
use crate::table::Table;
use std::alloc::Global;
use wb_answers::Stop;
use wb_aql_eval::Evaluator;
use wb_diagram::Key;
use wb_metamodel::ObjectId;
use wb_model::Model;
use wb_spec_check::CheckedViewpoint;

impl<E: Evaluator> Refresh<E> {
    /// The diagram of a model, declared from scratch: every unit is evaluated once, and its outcome kept.
    ///
    /// `TooLarge` comes where there are more than 100,000 units, or elements and edges together, or where all outcomes
    /// together weigh more than 2,000,000.
    pub fn open<'x>(
        alloc: Global,
        spec: &'x CheckedViewpoint,
        model: &'x Model,
        root: ObjectId,
        shown: &[Key],
        steps: &mut E,
    ) -> Result<Refresh<E>, Stop>
        requires checked { IsCheckedBy model.now.metamodel spec.now }
        ensures opened { IfOk result (IsOpened E.outcome_by (subject spec.now model.now root shown.now)) }
        ensures few { OnOk result (is_too_large E.outcome_by (subject spec.now model.now root shown.now) ≡ false) }
        ensures large { IfErr result (λ stop. stop ≡ TooLarge → is_too_large E.outcome_by (subject spec.now model.now root shown.now) ≡ true) }
        ensures counted { OnOk result (E.count steps.new ≡ E.count steps.old + length (all_units E.outcome_by (subject spec.now model.now root shown.now))) }
        ensures most { E.count steps.new ≤ E.count steps.old + length (all_units E.outcome_by (subject spec.now model.now root shown.now)) }
    {
        let mut table = Table::new(alloc, spec, model, root);
        let declared = evaluate_all(alloc, shown, &mut table, steps)?;
        Ok(Refresh::new(alloc, declared, table)?)
    }
}

// What is declared; all units are evaluated, and their outcomes kept.
fn evaluate_all<'x, E: Evaluator>(
    alloc: Global,
    shown: &[Key],
    table: &'x mut Table<'_>,
    steps: &'x mut E,
) -> Result<Declared, Stop>
    requires { table.old ≡ none_evaluated table.old.setting }
    ensures declared { let s = subject_in table.old.setting shown.now in IfOk result (AreDeclared (scene s) (told E.outcome_by s.setting)) }
    ensures ends { Ends E.outcome_by (subject_in table.old.setting shown.now) (E.count steps.old) result table.new (E.count steps.new) }
{
    let mut evaluating = Evaluating { steps, table };
    declare_in(alloc, shown, &mut evaluating)
}

fn declare_in<E: Evaluator>(
    alloc: Global,
    shown: &[Key],
    evaluating: &mut Evaluating<'_, '_, E>,
) -> Result<Declared, Stop>
    requires { evaluating.old.table.now ≡ none_evaluated evaluating.old.table.now.setting }
    ensures declared { let s = subject_in evaluating.old.table.now.setting shown.now in IfOk result (AreDeclared (scene s) (told E.outcome_by s.setting)) }
    ensures ends { Ends E.outcome_by (subject_in evaluating.old.table.now.setting shown.now) (E.count evaluating.old.steps.now) result evaluating.new.table.now (E.count evaluating.new.steps.now) }
    ensures same_steps { evaluating.new.steps.ghost_name ≡ evaluating.old.steps.ghost_name }
    ensures same_table { evaluating.new.table.ghost_name ≡ evaluating.old.table.ghost_name }
{
    let spec = evaluating.table.spec();
    let model = evaluating.table.model();
    declare(alloc, spec, model, shown, evaluating)
}
