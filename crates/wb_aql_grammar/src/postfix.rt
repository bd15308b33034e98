ghost use Rattle.std.specs.Prelude.{◌≤◌, ℕ, length, IfOk};
ghost use Rattle.wb_aql_grammar.specs.View.{tree_of};
ghost use Rattle.wb_aql_grammar.specs.Grammar.{Post, last, name};
ghost use Rattle.wb_aql_grammar.specs.invariants.Runs.{call as call_line, lambda_line, class_line};
ghost use Rattle.wb_aql_grammar.specs.invariants.Reading.{Comes, ComesLinked, ComesArguments, ComesArgument, IsCalled, linked, any_argument};

use crate::arguments::{Shape, is_closing, shape_of};
use crate::atom::parse_atom;
use crate::expr::{Argument, CallKind, Node};
use crate::level::link_at;
use crate::parser::{Read, parse_expression};
use crate::reading::{Room, behind_sign, enter, enter_lambda, expect, expect_name, is_next};
use sqlite_items::{Boxed, Items};
use std::alloc::Global;
use wb_aql_tokens::{Sign, Token};
use wb_base::Text;

/// Reads an atom, and a chain of `.` and `->` behind it.
#[cycle(parser)]
pub fn parse_postfix<'a>(alloc: Global, tokens: &'a [Token], room: Room) -> Read<'a, Node>
    ensures { Comes room.openings room.lambdas (last Post) tokens.now result }
{
    let (mut receiver, mut rest) = parse_atom(alloc, tokens, room)?;
    'chain: while let Some((kind, behind)) = link_at(rest) {
        let (linked, after) = parse_link(alloc, kind, receiver, behind, room)?;
        receiver = linked;
        rest = after;
    }
    Ok((receiver, rest))
}

/// Reads what stands behind a `.` or a `->`.
#[cycle(parser)]
fn parse_link<'a>(
    alloc: Global,
    kind: CallKind,
    receiver: Node,
    tokens: &'a [Token],
    room: Room,
) -> Read<'a, Node>
    ensures link { ComesLinked room.openings room.lambdas (name (λ v. linked kind (tree_of receiver) v)) tokens.now result }
    ensures within { IfOk result (λ u. length u.1.now ≤ length tokens.now) }
{
    let (name, rest) = expect_name(alloc, tokens)?;
    if is_call(kind, rest) {
        parse_call(alloc, kind, receiver, name, rest, room)
    } else {
        Ok((Node::feature(alloc, receiver, name)?, rest))
    }
}

/// Is what was named a service? Behind `->` it is.
fn is_call(kind: CallKind, tokens: &[Token]) -> bool
    ensures { IsCalled result kind tokens.now }
{
    match kind {
        CallKind::Dot => is_next(tokens, Sign::Open),
        CallKind::Arrow => true,
    }
}

/// Reads the parentheses of a call.
#[cycle(parser)]
fn parse_call<'a>(
    alloc: Global,
    kind: CallKind,
    receiver: Node,
    name: Text,
    tokens: &'a [Token],
    room: Room,
) -> Read<'a, Node>
    ensures call { ComesLinked room.openings room.lambdas (call_line kind (tree_of receiver) name) tokens.now result }
    ensures within { IfOk result (λ u. length u.1.now ≤ length tokens.now) }
{
    let (inside, inner) = enter(tokens, Sign::Open, room)?;
    let (arguments, rest) = parse_arguments(alloc, inside, inner)?;
    let rest = expect(rest, Sign::Close)?;
    Ok((Node::call(alloc, kind, receiver, name, arguments)?, rest))
}

/// Reads the arguments of a call.
#[cycle(parser)]
fn parse_arguments<'a>(
    alloc: Global,
    tokens: &'a [Token],
    room: Room,
) -> Read<'a, Items<Argument<Boxed<Node>>>>
    ensures { ComesArguments room.openings room.lambdas tokens.now result }
{
    let mut arguments = Items::new(alloc);
    if is_closing(tokens) {
        return Ok((arguments, tokens));
    }
    let mut rest = tokens;
    'arguments: loop {
        let (argument, after) = parse_argument(alloc, rest, room)?;
        arguments.push(argument)?;
        match behind_sign(after, Sign::Comma) {
            Some(behind) => rest = behind,
            None => return Ok((arguments, after)),
        }
    }
}

/// Reads an argument.
#[cycle(parser)]
fn parse_argument<'a>(
    alloc: Global,
    tokens: &'a [Token],
    room: Room,
) -> Read<'a, Argument<Boxed<Node>>>
    ensures argument { ComesArgument room.openings room.lambdas any_argument tokens.now result }
    ensures within { IfOk result (λ u. length u.1.now ≤ length tokens.now) }
{
    match shape_of(tokens) {
        Shape::Lambda => parse_lambda(alloc, tokens, room),
        Shape::Class => parse_class(alloc, tokens),
        Shape::Expression => {
            let (node, rest) = parse_expression(alloc, tokens, room)?;
            Ok((Argument::Expression(Boxed::new(alloc, node)?), rest))
        }
    }
}

/// Reads a lambda.
#[cycle(parser)]
fn parse_lambda<'a>(
    alloc: Global,
    tokens: &'a [Token],
    room: Room,
) -> Read<'a, Argument<Boxed<Node>>>
    ensures lambda { ComesArgument room.openings room.lambdas lambda_line tokens.now result }
    ensures within { IfOk result (λ u. length u.1.now ≤ length tokens.now) }
{
    let (name, rest) = expect_name(alloc, tokens)?;
    let (inside, inner) = enter_lambda(rest, room)?;
    let (body, rest) = parse_expression(alloc, inside, inner)?;
    Ok((Argument::Lambda(name, Boxed::new(alloc, body)?), rest))
}

/// Reads the name of a class.
fn parse_class<'a>(alloc: Global, tokens: &'a [Token]) -> Read<'a, Argument<Boxed<Node>>>
    ensures class { (n l : ℕ) → ComesArgument n l class_line tokens.now result }
    ensures within { IfOk result (λ u. length u.1.now ≤ length tokens.now) }
{
    let (package, rest) = expect_name(alloc, tokens)?;
    let rest = expect(rest, Sign::Colons)?;
    let (class, rest) = expect_name(alloc, rest)?;
    Ok((Argument::Type(package, class), rest))
}
