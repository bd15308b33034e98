ghost use Rattle.wb_aql_grammar.specs.View.{tree_of};
ghost use Rattle.wb_aql_grammar.specs.Grammar.{Expr, Neg, Cmp, Unary as UnaryPhrase, last};
ghost use Rattle.wb_aql_grammar.specs.invariants.Reading.{Comes, ComesEnded, operand, whole, let_inside};
ghost use Rattle.wb_aql_tokens.specs.declared.token.Token.TheVariants.{Sign as sign_token};

use crate::expr::{Node, Unary};
use crate::level::{Level, comparison_at, operator_at};
use crate::postfix::parse_postfix;
use crate::reading::{Room, enter, expect, expect_name, is_next};
use crate::unread::Unread;
use std::alloc::Global;
use wb_aql_tokens::{Sign, Token};

/// What was read, and the tokens that follow it.
pub type Read<'a, T> = Result<(T, &'a [Token]), Unread<'a>>;

/// Reads an expression.
#[cycle(parser)]
pub fn parse_expression<'a>(alloc: Global, tokens: &'a [Token], room: Room) -> Read<'a, Node>
    ensures { Comes room.openings room.lambdas (last Expr) tokens.now result }
{
    if is_next(tokens, Sign::Let) {
        let (inside, inner) = enter(tokens, Sign::Let, room)?;
        parse_binding(alloc, inside, inner)
    } else {
        parse_level(alloc, Level::Implies, tokens, room)
    }
}

/// Reads an expression and the sign behind it.
#[cycle(parser)]
pub fn parse_ended<'a>(alloc: Global, sign: Sign, tokens: &'a [Token], room: Room) -> Read<'a, Node>
    ensures { ComesEnded room.openings room.lambdas (sign_token sign) tokens.now result }
{
    let (node, rest) = parse_expression(alloc, tokens, room)?;
    let rest = expect(rest, sign)?;
    Ok((node, rest))
}

/// Reads what stands behind a `let`.
#[cycle(parser)]
fn parse_binding<'a>(alloc: Global, tokens: &'a [Token], room: Room) -> Read<'a, Node>
    ensures { Comes room.openings room.lambdas let_inside tokens.now result }
{
    let (name, rest) = expect_name(alloc, tokens)?;
    let rest = expect(rest, Sign::Equal)?;
    let (value, rest) = parse_ended(alloc, Sign::In, rest, room)?;
    let (body, rest) = parse_expression(alloc, rest, room)?;
    Ok((Node::let_in(alloc, name, value, body)?, rest))
}

/// Reads a chain of the operators of a level.
#[cycle(parser)]
fn parse_level<'a>(alloc: Global, level: Level, tokens: &'a [Token], room: Room) -> Read<'a, Node>
    ensures { Comes room.openings room.lambdas (last (whole level)) tokens.now result }
{
    let (mut left, mut rest) = parse_operand(alloc, level, tokens, room)?;
    'chain: while let Some((operator, behind)) = operator_at(level, rest) {
        let (right, after) = parse_operand(alloc, level, behind, room)?;
        left = Node::binary(alloc, operator, left, right)?;
        rest = after;
    }
    Ok((left, rest))
}

/// Reads an operand of the operators of a level.
#[cycle(parser)]
fn parse_operand<'a>(alloc: Global, level: Level, tokens: &'a [Token], room: Room) -> Read<'a, Node>
    ensures { Comes room.openings room.lambdas (last (operand level)) tokens.now result }
{
    match level {
        Level::Implies => parse_level(alloc, Level::Or, tokens, room),
        Level::Or => parse_level(alloc, Level::Xor, tokens, room),
        Level::Xor => parse_level(alloc, Level::And, tokens, room),
        Level::And => parse_negation(alloc, tokens, room),
        Level::Sum => parse_level(alloc, Level::Term, tokens, room),
        Level::Term => parse_unary(alloc, tokens, room),
    }
}

/// Reads a comparison behind any number of `not`.
#[cycle(parser)]
fn parse_negation<'a>(alloc: Global, tokens: &'a [Token], room: Room) -> Read<'a, Node>
    ensures { Comes room.openings room.lambdas (last Neg) tokens.now result }
{
    if is_next(tokens, Sign::Not) {
        let (inside, inner) = enter(tokens, Sign::Not, room)?;
        let (operand, rest) = parse_negation(alloc, inside, inner)?;
        Ok((Node::unary(alloc, Unary::Not, operand)?, rest))
    } else {
        parse_comparison(alloc, tokens, room)
    }
}

/// Reads a sum, or the comparison of two.
#[cycle(parser)]
fn parse_comparison<'a>(alloc: Global, tokens: &'a [Token], room: Room) -> Read<'a, Node>
    ensures { Comes room.openings room.lambdas (last Cmp) tokens.now result }
{
    let (left, rest) = parse_level(alloc, Level::Sum, tokens, room)?;
    match comparison_at(rest) {
        Some((operator, behind)) => {
            let (right, rest) = parse_level(alloc, Level::Sum, behind, room)?;
            Ok((Node::binary(alloc, operator, left, right)?, rest))
        }
        None => Ok((left, rest)),
    }
}

/// Reads an atom with its links behind any number of `-`.
#[cycle(parser)]
fn parse_unary<'a>(alloc: Global, tokens: &'a [Token], room: Room) -> Read<'a, Node>
    ensures { Comes room.openings room.lambdas (last UnaryPhrase) tokens.now result }
{
    if is_next(tokens, Sign::Minus) {
        let (inside, inner) = enter(tokens, Sign::Minus, room)?;
        let (operand, rest) = parse_unary(alloc, inside, inner)?;
        Ok((Node::unary(alloc, Unary::Negate, operand)?, rest))
    } else {
        parse_postfix(alloc, tokens, room)
    }
}
