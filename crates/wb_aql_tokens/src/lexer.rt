ghost use Rattle.std.specs.Prelude.{◌≡◌, ◌∷◌, Some, IfOk, MatchOption};
ghost use Rattle.std.specs.Str.{byte};
ghost use Rattle.wb_aql_tokens.specs.Lexes.{Lexes, NoToken};
ghost use Rattle.wb_aql_tokens.specs.Lexer.{BeginsWith, first_start};

use crate::characters::{Start, after_blanks, digit_run, first_byte, name_run, start_of};
use crate::quotes::{behind_quote, quotable_text, unescaped};
use crate::signs::{long_sign, reserved_word, short_sign};
use crate::token::Token;
use std::alloc::{AllocError, Global};
use wb_base::{List, Text};

/// An integer of a text is at most this.
const LARGEST_INTEGER: u64 = 9_223_372_036_854_775_807;

/// The tokens of a text with the offset at which each starts.
pub struct Lexed {
    pub tokens: List<Token>,
    pub starts: List<usize>,
}

impl Drop for Lexed {
    fn drop(self) {
        let Lexed {
            tokens: _tokens,
            starts: _starts,
        } = self;
    }
}

/// The tokens of a text with the offset at which each starts. `Bad` is the last where no token begins.
pub fn tokens_of(alloc: Global, text: &[u8]) -> Result<Lexed, AllocError>
    ensures { IfOk result (λ lexed. Lexes 0 text.now lexed.tokens lexed.starts) }
{
    let mut tokens = List::new(alloc);
    let mut starts = List::new(alloc);
    let mut rest = after_blanks(text);
    while !rest.is_empty() {
        starts.push(text.len() - rest.len())?;
        match next_token(alloc, rest)? {
            Some((token, behind)) => {
                tokens.push(token)?;
                rest = after_blanks(behind);
            }
            None => {
                tokens.push(Token::Bad)?;
                return Ok(Lexed { tokens, starts });
            }
        }
    }
    Ok(Lexed { tokens, starts })
}

/// The token that the text begins with, and what follows it.
fn next_token(alloc: Global, text: &[u8]) -> Result<Option<(Token, &[u8])>, AllocError>
    ensures { IfOk result (λ found. MatchOption found (NoToken text.now) (λ u. BeginsWith text.now u.0 u.1.now)) }
{
    match first_byte(text) {
        Some((first, behind)) => match start_of(first) {
            Start::Word => Ok(Some(word(alloc, text)?)),
            Start::Integer => Ok(integer(text)),
            Start::Quoted => quoted(alloc, behind),
            Start::Sign => Ok(sign(text)),
        },
        None => Ok(None),
    }
}

/// The name or the reserved word that the text begins with, and what follows it.
fn word(alloc: Global, text: &[u8]) -> Result<(Token, &[u8]), AllocError>
    requires { first_start text.now ≡ Some Start.Word }
    ensures { IfOk result (λ u. BeginsWith text.now u.0 u.1.now) }
{
    let (run, rest) = name_run(text);
    match reserved_word(run) {
        Some(sign) => Ok((Token::Sign(sign), rest)),
        None => Ok((Token::Name(Text::from_str(alloc, run)?), rest)),
    }
}

/// The integer that the text begins with, and what follows it.
fn integer(text: &[u8]) -> Option<(Token, &[u8])>
    requires { first_start text.now ≡ Some Start.Integer }
    ensures { MatchOption result (NoToken text.now) (λ u. BeginsWith text.now u.0 u.1.now) }
{
    let (run, rest) = digit_run(text);
    match run.parse::<u64>() {
        Ok(value) if value <= LARGEST_INTEGER => Some((Token::Integer(value), rest)),
        _ => None,
    }
}

/// The text in quotes that begins with a quote and these bytes, and what follows it.
fn quoted(alloc: Global, inside: &[u8]) -> Result<Option<(Token, &[u8])>, AllocError>
    ensures { IfOk result (λ found. MatchOption found (NoToken (byte "'" ∷ inside.now)) (λ u. BeginsWith (byte "'" ∷ inside.now) u.0 u.1.now)) }
{
    let (value, behind) = unescaped(alloc, inside)?;
    match behind_quote(behind) {
        Some(rest) => match quotable_text(value) {
            Some(text) => Ok(Some((Token::Quoted(text), rest))),
            None => Ok(None),
        },
        None => Ok(None),
    }
}

/// The sign that the text begins with, and what follows it.
fn sign(text: &[u8]) -> Option<(Token, &[u8])>
    requires { first_start text.now ≡ Some Start.Sign }
    ensures { MatchOption result (NoToken text.now) (λ u. BeginsWith text.now u.0 u.1.now) }
{
    match long_sign(text) {
        Some((sign, rest)) => Some((Token::Sign(sign), rest)),
        None => match short_sign(text) {
            Some((sign, rest)) => Some((Token::Sign(sign), rest)),
            None => None,
        },
    }
}
