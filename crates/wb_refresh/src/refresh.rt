ghost use Rattle.std.specs.Prelude.{◌≡◌, IfOk};
ghost use Rattle.std.specs.Option.{option_copied};
ghost use Rattle.wb_refresh.specs.Endings.{Holds};
ghost use Rattle.wb_refresh.specs.Openings.{answer_in};

use crate::declared::Declared;
use crate::table::Table;
use indexmap::IndexMap;
use std::alloc::{AllocError, Global};
use std::marker::PhantomData;
use wb_aql_eval::Outcome;
use wb_aql_values::Answer;
use wb_base::List;
use wb_diagram::{EdgeKey, Key, Look, Problem, Unit};

/// The diagram of a model, with the outcomes that it was declared by. It holds no evaluator, but is tied to its type.
pub struct Refresh<E> {
    declared: Declared,
    problems: List<Problem>,
    units: usize,
    outcomes: IndexMap<Unit, Outcome>,
    evaluator: PhantomData<E>,
}

impl<E> Drop for Refresh<E> {
    fn drop(self) {
        let Refresh {
            declared: _declared,
            problems: _problems,
            units: _,
            outcomes: _outcomes,
            evaluator: _,
        } = self;
    }
}

impl<E> std::marker::Model for Refresh<E> {
    ghost use Rattle.wb_refresh.specs.Openings.{Kept};

    ghost Value = { Kept };

    ghost view = { λ r. record {
      nodes = r.declared.nodes;
      edges = r.declared.edges;
      looks = r.declared.shown.looks;
      filtered = r.declared.shown.filtered;
      problems = r.problems;
      units = r.units;
      outcomes = r.outcomes.entries;
    } };
}

impl<E> Refresh<E> {
    /// What was declared, with the outcomes that it was declared by.
    pub(crate) fn new(
        alloc: Global,
        declared: Declared,
        table: Table<'_>,
    ) -> Result<Refresh<E>, AllocError>
        ensures { IfOk result (Holds declared table.entry) }
    {
        let problems = table.problems(alloc)?;
        let units = table.len();
        let outcomes = table.into_index(alloc)?;
        Ok(Refresh {
            declared,
            problems,
            units,
            outcomes,
            evaluator: PhantomData,
        })
    }

    /// The keys of the declared elements, parents before their children.
    pub fn nodes(&self) -> &[Key]
        ensures { result.now ≡ self.now.nodes }
    {
        self.declared.nodes.as_slice()
    }

    /// The keys of the declared edges, in order.
    pub fn edges(&self) -> &[EdgeKey]
        ensures { result.now ≡ self.now.edges }
    {
        self.declared.edges.as_slice()
    }

    /// The looks of the elements and then of the edges.
    pub fn looks(&self) -> &[Look]
        ensures { result.now ≡ self.now.looks }
    {
        self.declared.shown.looks.as_slice()
    }

    /// By filter, which of the elements and then of the edges it hides where it is active.
    pub fn filtered(&self) -> &[List<bool>]
        ensures { result.now ≡ self.now.filtered }
    {
        self.declared.shown.filtered.as_slice()
    }

    /// The units that have a fault, in order.
    pub fn problems(&self) -> &[Problem]
        ensures { result.now ≡ self.now.problems }
    {
        self.problems.as_slice()
    }

    /// The number of units.
    pub fn units(&self) -> usize
        ensures { result ≡ self.now.units }
    {
        self.units
    }

    /// The answer of a unit; `None` where it is none of the diagram's.
    pub fn answer(&self, unit: &Unit) -> Option<&Answer>
        ensures { option_copied result ≡ answer_in self.now unit.now }
    {
        match self.outcomes.get(unit) {
            Some(outcome) => Some(&outcome.answer),
            None => None,
        }
    }
}
