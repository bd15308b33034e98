ghost use Rattle.std.specs.Prelude.{◌≡◌, ◌∷◌, ℕ};
ghost use Rattle.wb_aql_grammar.specs.View.{tree_of};
ghost use Rattle.wb_aql_grammar.specs.Grammar.{Atom, Named, last};
ghost use Rattle.wb_aql_grammar.specs.invariants.Reading.{Comes, ComesElements, braces, if_inside, literal_rest};
ghost use Rattle.wb_aql_tokens.specs.declared.token.Token.TheVariants.{Sign as sign_token};

use crate::arguments::is_closing;
use crate::expr::{CollectionKind, Constant, Node};
use crate::parser::{Read, parse_ended, parse_expression};
use crate::reading::{Room, behind_sign, enter, expect, expect_name, first_token};
use crate::unread::Unread;
use sqlite_items::Items;
use std::alloc::Global;
use wb_aql_tokens::{Sign, Token};
use wb_base::{Duplicate, Text};

/// Reads an atom.
#[cycle(parser)]
pub fn parse_atom<'a>(alloc: Global, tokens: &'a [Token], room: Room) -> Read<'a, Node>
    ensures { Comes room.openings room.lambdas (last Atom) tokens.now result }
{
    match first_token(tokens) {
        Some((Token::Integer(value), rest)) => Ok((Node::integer(*value), rest)),
        Some((Token::Quoted(text), rest)) => Ok((Node::text(text.copy(alloc)?), rest)),
        Some((Token::Name(name), rest)) => parse_named(alloc, name.copy(alloc)?, rest),
        Some((Token::Sign(sign), rest)) => parse_marked(alloc, *sign, tokens, rest, room),
        Some((Token::Bad, _)) => Err(Unread::Wrong(tokens)),
        None => Err(Unread::Wrong(tokens)),
    }
}

/// Reads an atom that begins with a sign or a word.
#[cycle(parser)]
fn parse_marked<'a>(
    alloc: Global,
    sign: Sign,
    tokens: &'a [Token],
    behind: &'a [Token],
    room: Room,
) -> Read<'a, Node>
    requires { tokens.now ≡ sign_token sign ∷ behind.now }
    ensures { Comes room.openings room.lambdas (last Atom) tokens.now result }
{
    match sign {
        Sign::Null => Ok((Node::constant(Constant::Null), behind)),
        Sign::True => Ok((Node::constant(Constant::True), behind)),
        Sign::False => Ok((Node::constant(Constant::False), behind)),
        Sign::Open => {
            let (inside, inner) = enter(tokens, Sign::Open, room)?;
            parse_ended(alloc, Sign::Close, inside, inner)
        }
        Sign::If => {
            let (inside, inner) = enter(tokens, Sign::If, room)?;
            parse_branches(alloc, inside, inner)
        }
        Sign::Sequence => parse_collection(alloc, CollectionKind::Sequence, behind, room),
        Sign::OrderedSet => parse_collection(alloc, CollectionKind::OrderedSet, behind, room),
        _ => Err(Unread::Wrong(tokens)),
    }
}

/// Reads what stands behind an `if`.
#[cycle(parser)]
fn parse_branches<'a>(alloc: Global, tokens: &'a [Token], room: Room) -> Read<'a, Node>
    ensures { Comes room.openings room.lambdas if_inside tokens.now result }
{
    let (condition, rest) = parse_ended(alloc, Sign::Then, tokens, room)?;
    let (yes, rest) = parse_ended(alloc, Sign::Else, rest, room)?;
    let (no, rest) = parse_ended(alloc, Sign::Endif, rest, room)?;
    Ok((Node::conditional(alloc, condition, yes, no)?, rest))
}

/// Reads the braces of a collection.
#[cycle(parser)]
fn parse_collection<'a>(
    alloc: Global,
    kind: CollectionKind,
    tokens: &'a [Token],
    room: Room,
) -> Read<'a, Node>
    ensures { Comes room.openings room.lambdas (braces kind) tokens.now result }
{
    let (inside, inner) = enter(tokens, Sign::OpenBrace, room)?;
    let (elements, rest) = parse_elements(alloc, inside, inner)?;
    let rest = expect(rest, Sign::CloseBrace)?;
    Ok((Node::collection(kind, elements), rest))
}

/// Reads the elements of a collection.
#[cycle(parser)]
fn parse_elements<'a>(alloc: Global, tokens: &'a [Token], room: Room) -> Read<'a, Items<Node>>
    ensures { ComesElements room.openings room.lambdas tokens.now result }
{
    let mut elements = Items::new(alloc);
    if is_closing(tokens) {
        return Ok((elements, tokens));
    }
    let mut rest = tokens;
    'elements: loop {
        let (element, after) = parse_expression(alloc, rest, room)?;
        elements.push(element)?;
        match behind_sign(after, Sign::Comma) {
            Some(behind) => rest = behind,
            None => return Ok((elements, after)),
        }
    }
}

/// Reads what stands behind the first name of an atom.
fn parse_named<'a>(alloc: Global, name: Text, tokens: &'a [Token]) -> Read<'a, Node>
    ensures { (n l : ℕ) → Comes n l (last (Named name)) tokens.now result }
{
    match behind_sign(tokens, Sign::Colons) {
        Some(rest) => parse_literal(alloc, name, rest),
        None => Ok((Node::variable(name), tokens)),
    }
}

/// Reads what stands behind the owner of an enumeration and its `::`.
fn parse_literal<'a>(alloc: Global, owner: Text, tokens: &'a [Token]) -> Read<'a, Node>
    ensures { (n l : ℕ) → Comes n l (literal_rest owner) tokens.now result }
{
    let (enumeration, rest) = expect_name(alloc, tokens)?;
    let rest = expect(rest, Sign::Colons)?;
    let (name, rest) = expect_name(alloc, rest)?;
    Ok((Node::literal(owner, enumeration, name), rest))
}
