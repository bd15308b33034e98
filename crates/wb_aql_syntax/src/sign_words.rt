ghost use Rattle.std.specs.Prelude.{◌≡◌};
ghost use Rattle.wb_aql_tokens.specs.Lexes.{word_of};
ghost use Rattle.wb_aql_syntax.specs.Canonical.{sign_of, word_of_constant, word_of_kind, link_of};

use wb_aql_grammar::{Binary, CallKind, CollectionKind, Constant};
use wb_aql_tokens::Sign;

/// The text of a sign or a reserved word.
#[tactic(auto, unfolding(wb_aql_tokens::specs::Lexes::word_of))]
pub fn word(sign: Sign) -> &'static str
    ensures { result.now ≡ word_of sign }
{
    match sign {
        Sign::If => "if",
        Sign::Then => "then",
        Sign::Else => "else",
        Sign::Endif => "endif",
        Sign::Let => "let",
        Sign::In => "in",
        Sign::And => "and",
        Sign::Or => "or",
        Sign::Xor => "xor",
        Sign::Implies => "implies",
        Sign::Not => "not",
        Sign::Div => "div",
        Sign::Null => "null",
        Sign::True => "true",
        Sign::False => "false",
        Sign::Sequence => "Sequence",
        Sign::OrderedSet => "OrderedSet",
        Sign::Equal => "=",
        Sign::NotEqual => "<>",
        Sign::Less => "<",
        Sign::LessEqual => "<=",
        Sign::Greater => ">",
        Sign::GreaterEqual => ">=",
        Sign::Plus => "+",
        Sign::Minus => "-",
        Sign::Times => "*",
        Sign::Dot => ".",
        Sign::Arrow => "->",
        Sign::Colons => "::",
        Sign::Comma => ",",
        Sign::Bar => "|",
        Sign::Open => "(",
        Sign::Close => ")",
        Sign::OpenBrace => "{",
        Sign::CloseBrace => "}",
    }
}

/// The sign or the word of a binary operator.
pub fn sign_of(operator: Binary) -> Sign
    ensures { result ≡ sign_of operator }
{
    match operator {
        Binary::Implies => Sign::Implies,
        Binary::Or => Sign::Or,
        Binary::Xor => Sign::Xor,
        Binary::And => Sign::And,
        Binary::Equal => Sign::Equal,
        Binary::NotEqual => Sign::NotEqual,
        Binary::Less => Sign::Less,
        Binary::LessEqual => Sign::LessEqual,
        Binary::Greater => Sign::Greater,
        Binary::GreaterEqual => Sign::GreaterEqual,
        Binary::Add => Sign::Plus,
        Binary::Subtract => Sign::Minus,
        Binary::Multiply => Sign::Times,
        Binary::Divide => Sign::Div,
    }
}

pub fn word_of_constant(constant: Constant) -> Sign
    ensures { result ≡ word_of_constant constant }
{
    match constant {
        Constant::Null => Sign::Null,
        Constant::True => Sign::True,
        Constant::False => Sign::False,
    }
}

pub fn word_of_kind(kind: CollectionKind) -> Sign
    ensures { result ≡ word_of_kind kind }
{
    match kind {
        CollectionKind::Sequence => Sign::Sequence,
        CollectionKind::OrderedSet => Sign::OrderedSet,
    }
}

pub fn link_of(kind: CallKind) -> Sign
    ensures { result ≡ link_of kind }
{
    match kind {
        CallKind::Dot => Sign::Dot,
        CallKind::Arrow => Sign::Arrow,
    }
}
