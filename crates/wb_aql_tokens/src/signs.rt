ghost use Rattle.std.specs.Prelude.{◌≡◌, false, [], ◌∷◌, MatchOption};
ghost use Rattle.wb_aql_tokens.specs.Lexes.{word_of, is_reserved};
ghost use Rattle.wb_aql_tokens.specs.Lexer.{BeginsWithSign, NoSign, NoSignOf};

use crate::token::Sign;

/// The reserved word that this text is.
#[tactic(auto, unfolding(crate::specs::Lexes::word_of))]
pub fn reserved_word(text: &str) -> Option<Sign>
    ensures { MatchOption result (is_reserved text.now ≡ false) (λ sign. text.now ≡ word_of sign) }
{
    match text {
        "if" => Some(Sign::If),
        "then" => Some(Sign::Then),
        "else" => Some(Sign::Else),
        "endif" => Some(Sign::Endif),
        "let" => Some(Sign::Let),
        "in" => Some(Sign::In),
        "and" => Some(Sign::And),
        "or" => Some(Sign::Or),
        "xor" => Some(Sign::Xor),
        "implies" => Some(Sign::Implies),
        "not" => Some(Sign::Not),
        "div" => Some(Sign::Div),
        "null" => Some(Sign::Null),
        "true" => Some(Sign::True),
        "false" => Some(Sign::False),
        "Sequence" => Some(Sign::Sequence),
        "OrderedSet" => Some(Sign::OrderedSet),
        _ => None,
    }
}

/// The sign of these two bytes.
#[tactic(auto, unfolding(crate::specs::Lexes::word_of))]
fn sign_of_two(first: u8, second: u8) -> Option<Sign>
    ensures { MatchOption result (NoSign first (second ∷ [])) (λ sign. first ∷ second ∷ [] ≡ word_of sign) }
{
    match (first, second) {
        (b'<', b'>') => Some(Sign::NotEqual),
        (b'<', b'=') => Some(Sign::LessEqual),
        (b'>', b'=') => Some(Sign::GreaterEqual),
        (b'-', b'>') => Some(Sign::Arrow),
        (b':', b':') => Some(Sign::Colons),
        _ => None,
    }
}

/// The sign of this one byte.
#[tactic(auto, unfolding(crate::specs::Lexes::word_of))]
fn sign_of_one(byte: u8) -> Option<Sign>
    ensures { MatchOption result (NoSign byte []) (λ sign. byte ∷ [] ≡ word_of sign) }
{
    match byte {
        b'=' => Some(Sign::Equal),
        b'<' => Some(Sign::Less),
        b'>' => Some(Sign::Greater),
        b'+' => Some(Sign::Plus),
        b'-' => Some(Sign::Minus),
        b'*' => Some(Sign::Times),
        b'.' => Some(Sign::Dot),
        b',' => Some(Sign::Comma),
        b'|' => Some(Sign::Bar),
        b'(' => Some(Sign::Open),
        b')' => Some(Sign::Close),
        b'{' => Some(Sign::OpenBrace),
        b'}' => Some(Sign::CloseBrace),
        _ => None,
    }
}

/// The sign of two bytes that the text begins with, and what follows it.
pub fn long_sign(text: &[u8]) -> Option<(Sign, &[u8])>
    ensures { MatchOption result (NoSignOf 2 text.now) (λ u. BeginsWithSign 2 text.now u.0 u.1.now) }
{
    match text {
        [first, second, rest @ ..] => match sign_of_two(*first, *second) {
            Some(sign) => Some((sign, rest)),
            None => None,
        },
        _ => None,
    }
}

/// The sign of one byte that the text begins with, and what follows it.
pub fn short_sign(text: &[u8]) -> Option<(Sign, &[u8])>
    ensures { MatchOption result (NoSignOf 1 text.now) (λ u. BeginsWithSign 1 text.now u.0 u.1.now) }
{
    match text {
        [byte, rest @ ..] => match sign_of_one(*byte) {
            Some(sign) => Some((sign, rest)),
            None => None,
        },
        [] => None,
    }
}
