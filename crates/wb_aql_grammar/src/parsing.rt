ghost use Rattle.std.specs.Prelude.{◌≡◌, Ok, IfOk, IfErr};
ghost use Rattle.wb_aql_grammar.specs.Tree.{Tree};
ghost use Rattle.wb_aql_grammar.specs.Expressions.{SpellsText, Refuses, refusal_of, offset_at as offset_of_place};
ghost use Rattle.wb_aql_tokens.specs.Lexes.{Lexes};
ghost use Rattle.wb_base.specs.Answering.{AsDefined};

use crate::expression::Expr;
use crate::refusal::ParseRefusal;
use crate::spelled::{TokenRefusal, parse_tokens};
use std::alloc::Global;
use wb_aql_tokens::{Token, tokens_of};

/// The expression that the text spells, with at most 64 openings and 4 lambdas open at once.
pub fn parse(alloc: Global, text: &[u8]) -> Result<Expr, ParseRefusal>
    ensures found { IfOk result (SpellsText text.now) }
    ensures taken { (x : Tree) → SpellsText text.now x → AsDefined refusal_of (Ok x) result }
    ensures refused { IfErr result (Refuses text.now) }
{
    let lexed = tokens_of(alloc, text)?;
    parse_lexed(
        alloc,
        text,
        lexed.tokens.as_slice(),
        lexed.starts.as_slice(),
    )
}

/// The same of the tokens of the text, with the offsets at which they start.
fn parse_lexed(
    alloc: Global,
    text: &[u8],
    tokens: &[Token],
    starts: &[usize],
) -> Result<Expr, ParseRefusal>
    requires { Lexes 0 text.now tokens.now starts.now }
    ensures found { IfOk result (SpellsText text.now) }
    ensures taken { (x : Tree) → SpellsText text.now x → AsDefined refusal_of (Ok x) result }
    ensures refused { IfErr result (Refuses text.now) }
{
    match parse_tokens(alloc, tokens) {
        Ok(node) => Ok(Expr::new(node)),
        Err(TokenRefusal::Syntax(place)) => Err(ParseRefusal::Syntax(offset_at(
            text, starts, place,
        ))),
        Err(TokenRefusal::TooDeep(place)) => Err(ParseRefusal::TooDeep(offset_at(
            text, starts, place,
        ))),
        Err(TokenRefusal::NoMemory) => Err(ParseRefusal::NoMemory),
    }
}

/// Where the token with this many tokens before it starts; where none is left, the length of the text.
fn offset_at(text: &[u8], starts: &[usize], place: usize) -> usize
    ensures { result ≡ offset_of_place text.now starts.now place }
{
    match starts.get(place) {
        Some(start) => *start,
        None => text.len(),
    }
}
