ghost use Rattle.std.specs.Prelude.{◌≡◌, ◌≤◌, ◌+◌, length, IfOk, IfErr};
ghost use Rattle.wb_aql_grammar.specs.Tree.{Tree};
ghost use Rattle.wb_aql_grammar.specs.View.{tree_of};
ghost use Rattle.wb_aql_grammar.specs.Grammar.{Spells};
ghost use Rattle.wb_aql_grammar.specs.invariants.Spelled.{IsReadAs, RefusesTokens};

use crate::expr::Node;
use crate::parser::parse_expression;
use crate::reading::{Room, first_token};
use crate::unread::Unread;
use std::alloc::Global;
use wb_aql_tokens::Token;

/// Why tokens are no expression, with the number of tokens before the place.
#[derive(Clone, Copy)]
pub enum TokenRefusal {
    /// The token cannot go on, or the tokens end too soon.
    Syntax(usize),
    /// The token is one opening, or one lambda, too many.
    TooDeep(usize),
    NoMemory,
}

/// The expression that the tokens spell, with at most 64 openings and 4 lambdas open at once.
pub fn parse_tokens(alloc: Global, tokens: &[Token]) -> Result<Node, TokenRefusal>
    ensures found { IfOk result (λ node. Spells 64 4 tokens.now (tree_of node)) }
    ensures taken { (x : Tree) → Spells 64 4 tokens.now x → IsReadAs x result }
    ensures refused { IfErr result (RefusesTokens tokens.now) }
{
    let room = Room {
        openings: 64,
        lambdas: 4,
    };
    match parse_expression(alloc, tokens, room) {
        Ok((node, rest)) => match first_token(rest) {
            None => Ok(node),
            Some(_) => Err(TokenRefusal::Syntax(tokens_before(tokens, rest))),
        },
        Err(Unread::Wrong(rest)) => Err(TokenRefusal::Syntax(tokens_before(tokens, rest))),
        Err(Unread::Deep(rest)) => Err(TokenRefusal::TooDeep(tokens_before(tokens, rest))),
        Err(Unread::NoMemory) => Err(TokenRefusal::NoMemory),
    }
}

/// How many tokens stand before the rest of them.
fn tokens_before(tokens: &[Token], rest: &[Token]) -> usize
    requires { length rest.now ≤ length tokens.now }
    ensures { result + length rest.now ≡ length tokens.now }
{
    tokens.len() - rest.len()
}
