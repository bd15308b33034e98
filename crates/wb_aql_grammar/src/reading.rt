ghost use Rattle.std.specs.Prelude.{◌≡◌, ◌<◌, ℕ, suc, List, [], ◌∷◌, ◌↔◌, Some, IsTrue, IfOk, MatchOption, MatchResult};
ghost use Rattle.wb_aql_grammar.specs.Grammar.{openings, lambdas};
ghost use Rattle.wb_aql_grammar.specs.Grammar as g;
ghost use Rattle.wb_aql_grammar.specs.Places.{head};
ghost use Rattle.wb_aql_grammar.specs.invariants.Reading.{ReadsSign, NoSign, ReadsName, NoName, Enters, NoEntry};
ghost use Rattle.wb_aql_tokens.specs.declared.token.Sign.{Sign as SignName};
ghost use Rattle.wb_aql_tokens.specs.declared.token.Token.TheVariants.{Sign as sign_token, Name as name_token};

use crate::unread::Unread;
use std::alloc::Global;
use wb_aql_tokens::{Sign, Token};
use wb_base::{Duplicate, Text};

/// How many openings and lambdas may still stand open.
#[derive(Clone, Copy)]
pub struct Room {
    pub openings: usize,
    pub lambdas: usize,
}

/// The next token and what follows it.
pub fn first_token(tokens: &[Token]) -> Option<(&Token, &[Token])>
    ensures { MatchOption result (tokens.now ≡ []) (λ u. tokens.now ≡ u.0.now ∷ u.1.now) }
{
    tokens.split_first()
}

/// The next token, if it is a sign or a word, and what follows it.
pub fn first_sign(tokens: &[Token]) -> Option<(Sign, &[Token])>
    ensures { MatchOption result ((s : SignName) → head tokens.now ≡ Some (sign_token s) → ⊥) (λ u. tokens.now ≡ sign_token u.0 ∷ u.1.now) }
{
    match first_token(tokens) {
        Some((Token::Sign(sign), rest)) => Some((*sign, rest)),
        _ => None,
    }
}

/// Is this the next token?
pub fn is_next(tokens: &[Token], sign: Sign) -> bool
    ensures { IsTrue result ↔ (head tokens.now ≡ Some (sign_token sign)) }
{
    match first_sign(tokens) {
        Some((found, _)) => found == sign,
        None => false,
    }
}

/// What follows this sign or word, if it is the next token.
pub fn behind_sign(tokens: &[Token], sign: Sign) -> Option<&[Token]>
    ensures { MatchOption result (head tokens.now ≡ Some (sign_token sign) → ⊥) (λ rest. tokens.now ≡ sign_token sign ∷ rest.now) }
{
    match first_sign(tokens) {
        Some((found, rest)) => (found == sign).then_some(rest),
        None => None,
    }
}

/// The next token, if it is a name, and what follows it.
pub fn first_name(tokens: &[Token]) -> Option<(&Text, &[Token])>
    ensures { MatchOption result ((v : List ℕ) → head tokens.now ≡ Some (name_token v) → ⊥) (λ u. tokens.now ≡ name_token u.0.now ∷ u.1.now) }
{
    match first_token(tokens) {
        Some((Token::Name(name), rest)) => Some((name, rest)),
        _ => None,
    }
}

/// What follows this sign or word, which has to be the next token.
pub fn expect(tokens: &[Token], sign: Sign) -> Result<&[Token], Unread<'_>>
    ensures { MatchResult result (λ rest. ReadsSign (sign_token sign) tokens.now rest.now) (NoSign (sign_token sign) tokens.now) }
{
    match behind_sign(tokens, sign) {
        Some(rest) => Ok(rest),
        None => Err(Unread::Wrong(tokens)),
    }
}

/// A copy of the name that has to be the next token, and what follows it.
pub fn expect_name(alloc: Global, tokens: &[Token]) -> Result<(Text, &[Token]), Unread<'_>>
    ensures { MatchResult result (λ u. ReadsName u.0 tokens.now u.1.now) (NoName tokens.now) }
{
    match first_name(tokens) {
        Some((name, rest)) => {
            let name = name.copy(alloc)?;
            Ok((name, rest))
        }
        None => Err(Unread::Wrong(tokens)),
    }
}

impl Room {
    /// What is left inside one more opening.
    pub fn opened(self) -> Option<Room>
        ensures { MatchOption result (self.openings ≡ 0) (λ inner. (self.openings ≡ suc inner.openings) × (inner.lambdas ≡ self.lambdas)) }
    {
        match self.openings.checked_sub(1) {
            Some(openings) => Some(Room {
                openings,
                lambdas: self.lambdas,
            }),
            None => None,
        }
    }

    /// What is left inside one more lambda.
    pub fn bound(self) -> Option<Room>
        ensures { MatchOption result (self.lambdas ≡ 0) (λ inner. (self.lambdas ≡ suc inner.lambdas) × (inner.openings ≡ self.openings)) }
    {
        match self.lambdas.checked_sub(1) {
            Some(lambdas) => Some(Room {
                openings: self.openings,
                lambdas,
            }),
            None => None,
        }
    }
}

/// Behind an opening, which has to be the next token.
pub fn enter(tokens: &[Token], sign: Sign, room: Room) -> Result<(&[Token], Room), Unread<'_>>
    ensures entered { MatchResult result (λ u. Enters openings (sign_token sign) tokens.now u.0.now room.openings room.lambdas u.1.openings u.1.lambdas) (NoEntry openings (sign_token sign) tokens.now room.openings room.lambdas) }
    ensures less { IfOk result (λ u. u.1.openings < room.openings) }
{
    match behind_sign(tokens, sign) {
        Some(rest) => match room.opened() {
            Some(inner) => Ok((rest, inner)),
            None => Err(Unread::Deep(tokens)),
        },
        None => Err(Unread::Wrong(tokens)),
    }
}

/// Behind the `|` of a lambda, which has to be the next token.
pub fn enter_lambda(tokens: &[Token], room: Room) -> Result<(&[Token], Room), Unread<'_>>
    ensures entered { MatchResult result (λ u. Enters lambdas (sign_token Sign.Bar) tokens.now u.0.now room.openings room.lambdas u.1.openings u.1.lambdas) (NoEntry lambdas (sign_token Sign.Bar) tokens.now room.openings room.lambdas) }
    ensures same { IfOk result (λ u. u.1.openings ≡ room.openings) }
{
    match behind_sign(tokens, Sign::Bar) {
        Some(rest) => match room.bound() {
            Some(inner) => Ok((rest, inner)),
            None => Err(Unread::Deep(tokens)),
        },
        None => Err(Unread::Wrong(tokens)),
    }
}
