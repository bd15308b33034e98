ghost use Rattle.std.specs.Prelude.{◌≡◌, ◌≢◌, ℕ, List, Result, Some};
ghost use Rattle.wb_metamodel.specs.Metamodel.{Metamodel};
ghost use Rattle.wb_aql_grammar.specs.Tree.{Tree};
ghost use Rattle.wb_aql_grammar.specs.declared.refusal.ParseRefusal.{ParseRefusal};
ghost use Rattle.wb_aql_check.specs.Names.{first_wrong};
ghost use Rattle.wb_aql_check.specs.declared.refusal.CheckRefusal.TheVariants.{NoMemory};
ghost use Rattle.wb_expressions.specs.Parsed.{IsAnswer, parsed};

/// Each text has an answer of the grammar.
pub fn parsed_is_the_answer()
    ensures { (text : List ℕ) → IsAnswer text (parsed text) }
{}

/// A text has no other.
pub fn one_answer()
    ensures { (text : List ℕ) (answer : Result Tree ParseRefusal) → IsAnswer text answer → answer ≡ parsed text }
{}

/// No wrong name is want of memory, so each problem of an expression is one that its text has.
pub fn wrong_names_are_no_want_of_memory()
    ensures { (mm : Metamodel) (scope : List (List ℕ)) (x : Tree) → first_wrong mm scope x ≢ Some NoMemory }
{}
