ghost use Rattle.std.specs.Prelude.{◌≡◌, ℕ, List};
ghost use Rattle.wb_aql_grammar.specs.Tree.{Tree};
ghost use Rattle.wb_aql_grammar.specs.Expressions.{SpellsText, Refuses};
ghost use Rattle.wb_aql_grammar.specs.declared.refusal.ParseRefusal.TheVariants.{Syntax, TooDeep};

/// A text spells one tree at most.
pub fn one_tree_of_text()
    ensures { (text : List ℕ) (x y : Tree) → SpellsText text x → SpellsText text y → x ≡ y }
{}

/// A text has one syntax error at most.
pub fn one_syntax_error_of_text()
    ensures { (text : List ℕ) (p q : ℕ) → Refuses text (Syntax p) → Refuses text (Syntax q) → p ≡ q }
{}

/// A text has at most one opening at which it is too deep.
pub fn one_depth_of_text()
    ensures { (text : List ℕ) (p q : ℕ) → Refuses text (TooDeep p) → Refuses text (TooDeep q) → p ≡ q }
{}

/// No text has both.
pub fn one_refusal_of_text()
    ensures { (text : List ℕ) (p q : ℕ) → Refuses text (Syntax p) → Refuses text (TooDeep q) → ⊥ }
{}

/// A text that spells a tree has neither.
pub fn spelled_is_not_refused()
    ensures syntax { (text : List ℕ) (x : Tree) (p : ℕ) → SpellsText text x → Refuses text (Syntax p) → ⊥ }
    ensures depth { (text : List ℕ) (x : Tree) (p : ℕ) → SpellsText text x → Refuses text (TooDeep p) → ⊥ }
{}
