ghost use Rattle.std.specs.Prelude.{◌≡◌, ◌+◌, ◌≤◌, [], ◌∷◌, ◌++◌, length, IfOk, OnOk, OnErr};
ghost use Rattle.wb_aql_values.specs.Bounds.{IsBounded};
ghost use Rattle.wb_aql_values.specs.Runs.{answered};
ghost use Rattle.wb_spec_check.specs.Checked.{IsCheckedBy};
ghost use Rattle.wb_refresh.specs.Outcomes.{cost, nothing, outcome};
ghost use Rattle.wb_refresh.specs.Subjects.{setting};
ghost use Rattle.wb_refresh.specs.Faults.{problems_of};
ghost use Rattle.wb_refresh.specs.Tables.{Indexes, capped, none_evaluated, row_with, with_row};
ghost use Rattle.wb_refresh.specs.Weights.{is_over, size_of, weight_of};

use crate::faults::problems;
use crate::index::index;
use indexmap::IndexMap;
use std::alloc::{AllocError, Global};
use wb_answers::{environment, unit_expressions_are_checked};
use wb_aql_eval::{Evaluator, Outcome};
use wb_aql_values::{Answer, Reads, Value};
use wb_base::List;
use wb_diagram::{Problem, Unit};
use wb_metamodel::ObjectId;
use wb_model::Model;
use wb_spec_check::CheckedViewpoint;
use wb_store::Scalar;

/// The units that were evaluated over a model under a viewpoint, in order, with their outcomes, and what these weigh.
pub struct Table<'a> {
    spec: &'a CheckedViewpoint,
    model: &'a Model,
    root: ObjectId,
    outcomes: Vec<(Unit, Outcome)>,
    weight: u64,
}

impl<'a> Drop for Table<'a> {
    fn drop(self) {
        let Table {
            spec: _,
            model: _,
            root: _,
            outcomes: _outcomes,
            weight: _,
        } = self;
    }
}

impl<'a> std::marker::Model for Table<'a> {
    ghost use Rattle.std.specs.Prelude.{◌≡◌, map};
    ghost use Rattle.std.specs.List.{sum_by};
    ghost use Rattle.wb_model.specs.contracts.model.Model as the_model;
    ghost use Rattle.wb_spec_check.specs.contracts.checked_viewpoint.CheckedViewpoint as the_spec;
    ghost use Rattle.wb_answers.specs.contracts.rows.Row as the_row_of_unit;
    ghost use Rattle.wb_spec_check.specs.Checked.{IsCheckedBy};
    ghost use Rattle.wb_refresh.specs.Tables.{AreWithin, Evaluated, capped, evaluated, evaluated_code, row_with};
    ghost use Rattle.wb_refresh.specs.Weights.{weight_of};

    ghost Value = { Evaluated };

    ghost coded = { evaluated_code the_spec.the_row.coded the_model.the_row.coded the_row_of_unit.the_row.coded };

    ghost view = { λ t. evaluated t.spec.now t.model.now t.root t.outcomes.items };

    ghost invariant = { λ t. IsCheckedBy t.model.now.metamodel t.spec.now × AreWithin t.model.now.metamodel (map row_with t.outcomes.items) × (t.weight ≡ capped (sum_by weight_of (map row_with t.outcomes.items))) };
}

impl<'a> Table<'a> {
    /// Nothing was evaluated yet.
    pub fn new(
        alloc: Global,
        spec: &'a CheckedViewpoint,
        model: &'a Model,
        root: ObjectId,
    ) -> Table<'a>
        requires { IsCheckedBy model.now.metamodel spec.now }
        ensures { result ≡ none_evaluated (setting spec.now model.now root) }
    {
        Table {
            spec,
            model,
            root,
            outcomes: Vec::new(alloc),
            weight: 0,
        }
    }

    pub fn spec(&self) -> &'a CheckedViewpoint
        ensures { result.now ≡ self.now.setting.spec }
    {
        self.spec
    }

    pub fn model(&self) -> &'a Model
        ensures same { result.now ≡ self.now.setting.model }
        ensures checked { IsCheckedBy self.now.setting.model.metamodel self.now.setting.spec }
    {
        self.model
    }

    /// The outcome of a unit. It is not kept.
    #[tactic(auto, unfolding(crate::specs::Outcomes::outcome))]
    pub fn evaluate<E: Evaluator>(
        &self,
        alloc: Global,
        unit: &Unit,
        steps: &mut E,
    ) -> Result<Outcome, AllocError>
        ensures outcome { IfOk result (λ o. o ≡ outcome E.outcome_by self.now.setting unit.now) }
        ensures bounded { IfOk result (λ o. IfOk (answered o.answer) (IsBounded self.now.setting.model.metamodel)) }
        ensures counted { OnOk result (E.count steps.new ≡ E.count steps.old + cost self.now.setting unit.now) }
        ensures least { E.count steps.old ≤ E.count steps.new }
        ensures most { E.count steps.new ≤ E.count steps.old + cost self.now.setting unit.now }
    {
        unit_expressions_are_checked(self.spec, self.model.metamodel(), unit);
        match self.spec.expression_of(unit) {
            Some(e) => {
                let env = environment(alloc, unit, self.root, e.scope())?;
                steps.evaluate(alloc, e, &env, self.model)
            }
            None => Ok(nothing(alloc)),
        }
    }

    /// Keeps a unit with its outcome, behind those before.
    pub fn keep(&mut self, unit: Unit, outcome: Outcome) -> Result<(), AllocError>
        requires { IfOk (answered outcome.answer) (IsBounded self.old.setting.model.metamodel) }
        ensures ok { OnOk result (self.new ≡ with_row self.old (row_with (unit, outcome))) }
        ensures err { OnErr result (self.new ≡ self.old) }
    {
        let weight = self.weight.saturating_add(weight_of(&outcome));
        self.outcomes.push((unit, outcome))?;
        self.weight = weight;
        Ok(())
    }

    /// Are there too many units, or do they weigh too much?
    pub fn is_over(&self) -> bool
        ensures { result ≡ is_over self.now.rows }
    {
        self.outcomes.len() > 100_000 || self.weight > 2_000_000
    }

    /// The number of units.
    pub fn len(&self) -> usize
        ensures { result ≡ length self.now.rows }
    {
        self.outcomes.len()
    }

    /// The problems of the units, in their order.
    pub fn problems(&self, alloc: Global) -> Result<List<Problem>, AllocError>
        ensures { IfOk result (λ found. found ≡ problems_of self.now.setting.model.metamodel self.now.rows) }
    {
        problems(alloc, self.model.metamodel(), self.outcomes.as_slice())
    }

    /// The outcomes by unit.
    pub fn into_index(self, alloc: Global) -> Result<IndexMap<Unit, Outcome>, AllocError>
        ensures { IfOk result (λ index. Indexes self.entry.rows index.entries) }
    {
        let Table {
            spec: _,
            model: _,
            root: _,
            outcomes,
            weight: _,
        } = self;
        index(alloc, outcomes)
    }
}

// Null, without reads.
fn nothing(alloc: Global) -> Outcome
    ensures { result ≡ nothing }
{
    Outcome {
        answer: Answer::Value(Value::Null),
        reads: Reads::new(alloc),
    }
}

// The number of reads, and the size of the answer.
fn weight_of(outcome: &Outcome) -> u64
    ensures { result ≡ capped (length outcome.now.reads + size_of outcome.now.answer) }
{
    let reads = outcome.reads.as_slice().len() as u64;
    reads.saturating_add(size_of(&outcome.answer))
}

// The members of a collection, or the sixteenths of a text's bytes.
fn size_of(answer: &Answer) -> u64
    ensures { result ≡ size_of answer.now }
{
    match answer {
        Answer::Value(Value::Sequence(xs)) => xs.len() as u64,
        Answer::Value(Value::OrderedSet(xs)) => xs.len() as u64,
        Answer::Value(Value::One(Scalar::Text(text))) => (text.as_slice().len() / 16) as u64,
        _ => 0,
    }
}
