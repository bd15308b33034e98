ghost use Rattle.std.specs.Prelude.{◌≡◌, ◌≤◌, ℕ, true, List, length};
ghost use Rattle.wb_aql_grammar.specs.Tree.{Tree};
ghost use Rattle.wb_aql_grammar.specs.Grammar.{Spells};
ghost use Rattle.wb_aql_syntax.specs.Canonical.{canon, openings_of, lambdas_of};
ghost use Rattle.wb_aql_tokens.specs.Lexes.{Lexes};
ghost use Rattle.wb_aql_grammar.specs.Expressions.{SpellsText, IsExpression};
ghost use Rattle.wb_aql_syntax.specs.Printed.{printed, is_writable};
ghost use Rattle.wb_aql_tokens.specs.declared.token.Token.{Token};

/// The canonical tokens spell the tree within its least bounds.
pub fn canonical_spells()
    ensures { (x : Tree) → Spells (openings_of x) (lambdas_of x) (canon x) x }
{}

/// No spelling has fewer tokens: a parenthesis stands only where the tree needs it.
pub fn canonical_is_shortest()
    ensures { (n l : ℕ) (tokens : List Token) (x : Tree) → Spells n l tokens x → length (canon x) ≤ length tokens }
{}

/// No spelling needs fewer openings, or fewer lambdas.
pub fn canonical_is_shallowest()
    ensures { (n l : ℕ) (tokens : List Token) (x : Tree) → Spells n l tokens x → (openings_of x ≤ n) × (lambdas_of x ≤ l) }
{}

/// Equal trees alone have the same canonical tokens.
pub fn canonical_tells_trees_apart()
    ensures { (x y : Tree) → canon x ≡ canon y → x ≡ y }
{}

/// The canonical bytes have the canonical tokens, so they spell the tree again.
pub fn printed_spells()
    ensures { (x : Tree) → is_writable x ≡ true → (starts : List ℕ) × Lexes 0 (printed x) (canon x) starts }
{}

/// A tree that a text spells can be written.
pub fn read_trees_are_writable()
    ensures { (n l offset : ℕ) (text starts : List ℕ) (tokens : List Token) (x : Tree) → Lexes offset text tokens starts → Spells n l tokens x → is_writable x ≡ true }
{}

/// Equal trees alone have the same canonical bytes.
pub fn printed_tells_trees_apart()
    ensures { (x y : Tree) → is_writable x ≡ true → is_writable y ≡ true → printed x ≡ printed y → x ≡ y }
{}

/// The canonical bytes of an expression spell it, within the bounds of a text.
pub fn printed_is_read_back()
    ensures { (x : Tree) → IsExpression x → SpellsText (printed x) x }
{}
