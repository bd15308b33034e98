ghost use Rattle.std.specs.Prelude.{◌≡◌, ℕ, List};
ghost use Rattle.wb_aql_grammar.specs.Tree.{Tree};
ghost use Rattle.wb_aql_grammar.specs.Grammar.{Spells};
ghost use Rattle.wb_aql_grammar.specs.Places.{IsSyntax, IsTooDeep};
ghost use Rattle.wb_aql_tokens.specs.declared.token.Token.{Token};

/// Tokens spell one tree at most, within whatever bounds.
pub fn one_tree()
    ensures { (n l m k : ℕ) (tokens : List Token) (x y : Tree) → Spells n l tokens x → Spells m k tokens y → x ≡ y }
{}

/// One token at most is the first that cannot go on.
pub fn one_place_of_syntax()
    ensures { (n l : ℕ) (tokens : List Token) (p q : ℕ) → IsSyntax n l tokens p → IsSyntax n l tokens q → p ≡ q }
{}

/// One token at most is the first opening that passes a bound.
pub fn one_place_of_depth()
    ensures { (n l : ℕ) (tokens : List Token) (p q : ℕ) → IsTooDeep n l tokens p → IsTooDeep n l tokens q → p ≡ q }
{}

/// No tokens have both.
pub fn one_refusal()
    ensures { (n l : ℕ) (tokens : List Token) (p q : ℕ) → IsSyntax n l tokens p → IsTooDeep n l tokens q → ⊥ }
{}
