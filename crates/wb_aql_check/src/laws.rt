ghost use Rattle.std.specs.Prelude.{◌≡◌, ◌↔◌, ℕ, List, None, true};
ghost use Rattle.wb_metamodel.specs.Metamodel.{Metamodel};
ghost use Rattle.wb_aql_grammar.specs.Tree.{Tree};
ghost use Rattle.wb_aql_grammar.specs.Expressions.{IsExpression, SpellsText};
ghost use Rattle.wb_aql_syntax.specs.Printed.{printed};
ghost use Rattle.wb_aql_check.specs.Checked.{KnownTo};
ghost use Rattle.wb_aql_check.specs.Names.{IsWithin, knows, first_wrong};
ghost use Rattle.wb_aql_check.specs.declared.checked.Origin.{Origin};

/// Each name is known exactly where none is the first that is not.
pub fn known_names_are_not_wrong()
    ensures { (mm : Metamodel) (scope : List (List ℕ)) (x : Tree) → (knows mm scope x ≡ true) ↔ (first_wrong mm scope x ≡ None) }
{}

/// What was checked keeps its known names where more is in scope.
pub fn known_in_a_larger_scope()
    ensures { (mm : Metamodel) (origin : Origin) (scope larger : List (List ℕ)) → IsWithin scope larger → KnownTo mm origin scope → KnownTo mm origin larger }
{}

/// Whatever the canonical text of an expression is read as, the check answers it as it answers the expression.
pub fn printed_expressions_are_checked_alike()
    ensures first { (mm : Metamodel) (scope : List (List ℕ)) (x read : Tree) → IsExpression x → SpellsText (printed x) read → first_wrong mm scope read ≡ first_wrong mm scope x }
    ensures known { (mm : Metamodel) (scope : List (List ℕ)) (x read : Tree) → IsExpression x → SpellsText (printed x) read → knows mm scope read ≡ knows mm scope x }
{}
