ghost use Rattle.std.specs.Prelude.{◌≡◌, ℕ, true, false, List, Some};
ghost use Rattle.wb_diagram.specs.declared.keys.Key.{Key};
ghost use Rattle.wb_diagram.specs.declared.keys.Pair.{Pair};
ghost use Rattle.wb_spec_check.specs.declared.checked_mappings.CheckedNode.{CheckedNode};
ghost use Rattle.wb_answers.specs.SameKeys.{among};
ghost use Rattle.wb_nodes.specs.Nodes.{node_mapping};
ghost use Rattle.wb_refresh.specs.Subjects.{Setting, Subject, subject_in};
ghost use Rattle.wb_declared.specs.Declarations.{DeclaresAlike, declared_nodes, renumbered};
ghost use Rattle.wb_declared.specs.Marks.{DropsUndeclared, settled};
ghost use Rattle.wb_declared.specs.Standing.{key_under};

use wb_aql_eval::Evaluator;

/// What is declared does not look at the number that the next object gets, and nor does its size.
pub fn next_numbers_are_not_seen<E: Evaluator>()
    ensures { (s : Subject) (next : ℕ) → DeclaresAlike E.outcome_by s (renumbered next s) }
{}

/// Dropping marks of what is not declared changes neither what is declared nor its size.
pub fn undeclared_marks_are_not_seen<E: Evaluator>()
    ensures dropped { (s : Setting) (a b : List Key) → DropsUndeclared (declared_nodes E.outcome_by (subject_in s a)) a b → DeclaresAlike E.outcome_by (subject_in s a) (subject_in s b) }
    ensures settled { (s : Setting) (a : List Key) → DeclaresAlike E.outcome_by (subject_in s a) (subject_in s (settled E.outcome_by s a)) }
{}

/// An element of an unsynchronised mapping is declared only where its own key is marked.
pub fn unsynchronised_elements_are_marked<E: Evaluator>()
    ensures { (s : Subject) (path : List Pair) (own : Pair) (node : CheckedNode) → node_mapping s.setting.spec own.mapping ≡ Some node → node.synchronised ≡ false → among (declared_nodes E.outcome_by s) (key_under path own) ≡ true → among s.shown (key_under path own) ≡ true }
{}
