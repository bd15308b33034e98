ghost use Rattle.std.specs.Prelude.{◌≡◌, ℕ, suc, ◌+◌, true, List, ◌∷◌, ◌++◌, length};
ghost use Rattle.std.specs.List.{list_all};
ghost use Rattle.std.specs.Str.{byte};
ghost use Rattle.wb_aql_tokens.specs.Lexes.{Spelling, Lexes, is_within};
ghost use Rattle.wb_aql_tokens.specs.Apart.{ends_before};
ghost use Rattle.wb_aql_tokens.specs.declared.token.Token.{Token};

/// A text has one list of tokens, each with one offset.
pub fn one_lexing()
    ensures { (offset : ℕ) (text : List ℕ) (tokens others : List Token) (starts places : List ℕ) → Lexes offset text tokens starts → Lexes offset text others places → (tokens ≡ others) × (starts ≡ places) }
{}

/// Each token of a text is within its bounds.
pub fn tokens_are_within()
    ensures { (offset : ℕ) (text : List ℕ) (tokens : List Token) (starts : List ℕ) → Lexes offset text tokens starts → list_all is_within tokens ≡ true }
{}

/// Each token of a text has an offset.
pub fn each_token_starts()
    ensures { (offset : ℕ) (text : List ℕ) (tokens : List Token) (starts : List ℕ) → Lexes offset text tokens starts → length starts ≡ length tokens }
{}

/// Where the bytes of a token stand before bytes that do not lengthen it, the text has the token and those of the rest.
pub fn token_stands_first()
    ensures { (offset : ℕ) (token : Token) (front rest : List ℕ) (tokens : List Token) (starts : List ℕ) → Spelling token front → is_within token ≡ true → ends_before token rest ≡ true → Lexes (offset + length front) rest tokens starts → Lexes offset (front ++ rest) (token ∷ tokens) (offset ∷ starts) }
{}

/// The same behind a space.
pub fn token_stands_behind_space()
    ensures { (offset : ℕ) (token : Token) (front rest : List ℕ) (tokens : List Token) (starts : List ℕ) → Spelling token front → is_within token ≡ true → ends_before token rest ≡ true → Lexes (suc offset + length front) rest tokens starts → Lexes offset (byte " " ∷ (front ++ rest)) (token ∷ tokens) (suc offset ∷ starts) }
{}
