ghost use Rattle.std.specs.Prelude.{◌≡◌, ◌≢◌, ℕ, List, ◌∷◌, true, false, IfOk, MatchOption};
ghost use Rattle.std.specs.Str.{byte};
ghost use Rattle.wb_aql_tokens.specs.Lexes.{escape_of, is_quotable};
ghost use Rattle.wb_aql_tokens.specs.Lexer.{BeginsWithEscape, BeginsWithPiece, NoEscape, NoPiece, Unescapes};

use crate::characters::first_byte;
use std::alloc::{AllocError, Global};
use wb_base::{List, Text};

/// The byte that an escape means, by the byte behind its `\`.
#[tactic(auto, unfolding(crate::specs::Lexes::escape_of))]
fn escape_of(code: u8) -> Option<u8>
    ensures { result ≡ escape_of code }
{
    match code {
        b'\\' => Some(b'\\'),
        b'\'' => Some(b'\''),
        b'n' => Some(b'\n'),
        b't' => Some(b'\t'),
        _ => None,
    }
}

/// What the escape means whose `\` stands before these bytes, and what follows it.
fn escaped(behind: &[u8]) -> Option<(u8, &[u8])>
    ensures { MatchOption result (NoEscape behind.now) (λ u. BeginsWithEscape behind.now u.0 u.1.now) }
{
    match first_byte(behind) {
        Some((code, rest)) => match escape_of(code) {
            Some(meaning) => Some((meaning, rest)),
            None => None,
        },
        None => None,
    }
}

/// What the next piece of a text in quotes means, and what follows it.
fn first_piece(bytes: &[u8]) -> Option<(u8, &[u8])>
    ensures { MatchOption result (NoPiece bytes.now) (λ u. BeginsWithPiece bytes.now u.0 u.1.now) }
{
    match first_byte(bytes) {
        Some((byte, rest)) => {
            if byte == b'\\' {
                escaped(rest)
            } else if byte == b'\'' {
                None
            } else {
                Some((byte, rest))
            }
        }
        None => None,
    }
}

/// What the pieces of a text in quotes mean together, and what follows them.
pub fn unescaped(alloc: Global, bytes: &[u8]) -> Result<(List<u8>, &[u8]), AllocError>
    ensures { IfOk result (λ u. Unescapes bytes.now u.0 u.1.now) }
{
    let mut value = List::new(alloc);
    let mut rest = bytes;
    while let Some((meaning, more)) = first_piece(rest) {
        value.push(meaning)?;
        rest = more;
    }
    Ok((value, rest))
}

/// The text of these bytes, if it may stand in quotes.
#[tactic(auto, unfolding(crate::specs::Lexes::is_quotable))]
pub fn quotable_text(value: List<u8>) -> Option<Text>
    ensures { MatchOption result (is_quotable value ≡ false) (λ text. (text ≡ value) × (is_quotable value ≡ true)) }
{
    if value.len() > 65_536 {
        return None;
    }
    match String::from_utf8(value.into_vec()) {
        Ok(text) => Some(Text::from_string(text)),
        Err(_) => None,
    }
}

/// What follows the quote that these bytes begin with.
pub fn behind_quote(bytes: &[u8]) -> Option<&[u8]>
    ensures { MatchOption result ((rest : List ℕ) → bytes.now ≢ byte "'" ∷ rest) (λ rest. bytes.now ≡ byte "'" ∷ rest.now) }
{
    match first_byte(bytes) {
        Some((byte, rest)) => (byte == b'\'').then_some(rest),
        None => None,
    }
}
