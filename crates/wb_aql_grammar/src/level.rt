ghost use Rattle.std.specs.Prelude.{◌≡◌, ◌<◌, length, Some, IfSome, MatchOption};
ghost use Rattle.wb_aql_grammar.specs.Tree.{Tree};
ghost use Rattle.wb_aql_grammar.specs.Tree as t;
ghost use Rattle.wb_aql_grammar.specs.Grammar.{done};
ghost use Rattle.wb_aql_grammar.specs.invariants.Runs.{next, chain, cmp_next, compare};
ghost use Rattle.wb_aql_grammar.specs.Places.{head};
ghost use Rattle.wb_aql_grammar.specs.invariants.Reading.{operand, more, GoesOn, Ends, Compares, NoComparison, Links, NoLink};
ghost use Rattle.wb_aql_tokens.specs.declared.token.Token.TheVariants.{Sign as sign_token};

use crate::expr::{Binary, CallKind};
use crate::reading::{behind_sign, first_sign};
use wb_aql_tokens::{Sign, Token};

/// A level of binary operators that form chains, from the loosest to the tightest.
#[derive(Clone, Copy)]
pub enum Level {
    Implies,
    Or,
    Xor,
    And,
    Sum,
    Term,
}

/// The operator of this level that the sign stands for.
pub fn operator_of(level: Level, sign: Sign) -> Option<Binary>
    ensures { MatchOption result ((x : Tree) → next (more level x) (Some (sign_token sign)) ≡ Some (done x)) (λ op. (x : Tree) → next (more level x) (Some (sign_token sign)) ≡ Some (chain (sign_token sign) (operand level) (λ y. more level (t.Binary op x y)))) }
{
    match (level, sign) {
        (Level::Implies, Sign::Implies) => Some(Binary::Implies),
        (Level::Or, Sign::Or) => Some(Binary::Or),
        (Level::Xor, Sign::Xor) => Some(Binary::Xor),
        (Level::And, Sign::And) => Some(Binary::And),
        (Level::Sum, Sign::Plus) => Some(Binary::Add),
        (Level::Sum, Sign::Minus) => Some(Binary::Subtract),
        (Level::Term, Sign::Times) => Some(Binary::Multiply),
        (Level::Term, Sign::Div) => Some(Binary::Divide),
        _ => None,
    }
}

/// The comparison that the sign stands for.
pub fn comparison_of(sign: Sign) -> Option<Binary>
    ensures { MatchOption result ((x : Tree) → cmp_next x (Some (sign_token sign)) ≡ done x) (λ op. (x : Tree) → cmp_next x (Some (sign_token sign)) ≡ compare (sign_token sign) op x) }
{
    match sign {
        Sign::Equal => Some(Binary::Equal),
        Sign::NotEqual => Some(Binary::NotEqual),
        Sign::Less => Some(Binary::Less),
        Sign::LessEqual => Some(Binary::LessEqual),
        Sign::Greater => Some(Binary::Greater),
        Sign::GreaterEqual => Some(Binary::GreaterEqual),
        _ => None,
    }
}

/// The operator of this level that is the next token, and what follows it.
pub fn operator_at(level: Level, tokens: &[Token]) -> Option<(Binary, &[Token])>
    ensures operator { MatchOption result (Ends level tokens.now) (λ u. GoesOn level u.0 tokens.now u.1.now) }
    ensures shorter { IfSome result (λ u. length u.1.now < length tokens.now) }
{
    match first_sign(tokens) {
        Some((sign, rest)) => match operator_of(level, sign) {
            Some(operator) => Some((operator, rest)),
            None => None,
        },
        None => None,
    }
}

/// The comparison that is the next token, and what follows it.
pub fn comparison_at(tokens: &[Token]) -> Option<(Binary, &[Token])>
    ensures { MatchOption result (NoComparison tokens.now) (λ u. Compares u.0 tokens.now u.1.now) }
{
    match first_sign(tokens) {
        Some((sign, rest)) => match comparison_of(sign) {
            Some(operator) => Some((operator, rest)),
            None => None,
        },
        None => None,
    }
}

/// A `.` or a `->` that is the next token, and what follows it.
pub fn link_at(tokens: &[Token]) -> Option<(CallKind, &[Token])>
    ensures link { MatchOption result (NoLink tokens.now) (λ u. Links u.0 tokens.now u.1.now) }
    ensures shorter { IfSome result (λ u. length u.1.now < length tokens.now) }
{
    match behind_sign(tokens, Sign::Dot) {
        Some(rest) => Some((CallKind::Dot, rest)),
        None => arrow_at(tokens),
    }
}

/// A `->` that is the next token, and what follows it.
fn arrow_at(tokens: &[Token]) -> Option<(CallKind, &[Token])>
    ensures link { MatchOption result (head tokens.now ≡ Some (sign_token Sign.Arrow) → ⊥) (λ u. Links u.0 tokens.now u.1.now) }
    ensures shorter { IfSome result (λ u. length u.1.now < length tokens.now) }
{
    match behind_sign(tokens, Sign::Arrow) {
        Some(rest) => Some((CallKind::Arrow, rest)),
        None => None,
    }
}
