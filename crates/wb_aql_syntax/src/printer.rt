ghost use Rattle.std.specs.Prelude.{◌≡◌, ◌∷◌, [], false, IfOk, OnOk};
ghost use Rattle.wb_aql_grammar.specs.View.{tree_of, trees_in, arguments_in};
ghost use Rattle.wb_aql_grammar.specs.Tree as t;
ghost use Rattle.wb_aql_syntax.specs.Canonical.{pieces, standing, enclosed, element_pieces, argument_pieces};
ghost use Rattle.wb_aql_syntax.specs.Printed.{printed, Wrote};

use crate::sign_words::{link_of, sign_of, word_of_constant, word_of_kind};
use crate::tightness::{Tightness, left_of, prefix_of, right_of, stands, tightness_of};
use crate::writer::{
    write_apart, write_blank, write_comma, write_integer, write_name, write_prefix, write_quoted,
    write_sign,
};
use sqlite_items::{Boxed, Items};
use std::alloc::{AllocError, Global};
use wb_aql_grammar::{Argument, Binary, CallKind, CollectionKind, Node};
use wb_aql_tokens::Sign;
use wb_base::Text;

/// The canonical spelling of a tree.
pub(crate) fn print_tree(alloc: Global, e: &Node) -> Result<Text, AllocError>
    ensures { IfOk result (λ text. text ≡ printed (tree_of e.now)) }
{
    let mut out = String::new(alloc);
    write_bare(&mut out, e)?;
    Ok(Text::from_string(out))
}

/// Writes a tree where this phrase is wanted: in parentheses, unless it stands there without them.
#[cycle(printer)]
fn write_at(out: &mut String, wanted: Tightness, e: &Node) -> Result<(), AllocError>
    ensures { OnOk result (Wrote out.old (standing wanted (tree_of e.now) (pieces (tree_of e.now))) out.new) }
{
    if stands(wanted, tightness_of(e)) {
        return write_bare(out, e);
    }
    write_sign(out, Sign::Open)?;
    write_bare(out, e)?;
    write_sign(out, Sign::Close)
}

/// Writes a tree where any phrase may stand.
#[cycle(printer)]
fn write_bare(out: &mut String, e: &Node) -> Result<(), AllocError>
    ensures { OnOk result (Wrote out.old (pieces (tree_of e.now)) out.new) }
{
    match e {
        Node::Integer(value) => write_integer(out, *value),
        Node::Text(text) => write_quoted(out, text),
        Node::Constant(constant) => write_sign(out, word_of_constant(*constant)),
        Node::Variable(name) => write_name(out, name),
        Node::Literal(owner, enumeration, name) => write_literal(out, owner, enumeration, name),
        Node::Collection(kind, elements) => write_collection(out, *kind, elements),
        Node::Unary(operator, operand) => {
            write_prefix(out, *operator)?;
            write_at(out, prefix_of(*operator), operand.get())
        }
        Node::Binary(operator, left, right) => {
            write_binary(out, *operator, left.get(), right.get())
        }
        Node::If(condition, yes, no) => write_if(out, condition.get(), yes.get(), no.get()),
        Node::Let(name, value, body) => write_let(out, name, value.get(), body.get()),
        Node::Feature(receiver, name) => {
            write_at(out, Tightness::Post, receiver.get())?;
            write_sign(out, Sign::Dot)?;
            write_name(out, name)
        }
        Node::Call(kind, receiver, name, arguments) => {
            write_at(out, Tightness::Post, receiver.get())?;
            write_sign(out, link_of(*kind))?;
            write_name(out, name)?;
            write_arguments(out, arguments)
        }
    }
}

/// Writes an enumeration's literal.
#[tactic(auto, unfolding(crate::specs::Canonical::pieces, crate::specs::Printed::bytes_in))]
fn write_literal(
    out: &mut String,
    owner: &Text,
    enumeration: &Text,
    name: &Text,
) -> Result<(), AllocError>
    ensures { OnOk result (Wrote out.old (pieces (t.Literal owner.now enumeration.now name.now)) out.new) }
{
    write_name(out, owner)?;
    write_sign(out, Sign::Colons)?;
    write_name(out, enumeration)?;
    write_sign(out, Sign::Colons)?;
    write_name(out, name)
}

/// Writes a collection with its elements in braces.
#[cycle(printer)]
fn write_collection(
    out: &mut String,
    kind: CollectionKind,
    elements: &Items<Node>,
) -> Result<(), AllocError>
    ensures { OnOk result (Wrote out.old (pieces (t.Collection kind (trees_in elements.now))) out.new) }
{
    write_sign(out, word_of_kind(kind))?;
    write_sign(out, Sign::OpenBrace)?;
    let mut later = false;
    for element in elements.as_slice() {
        write_comma(out, later)?;
        write_bare(out, element)?;
        later = true;
    }
    write_sign(out, Sign::CloseBrace)
}

/// Writes a binary operator between its operands.
#[cycle(printer)]
fn write_binary(
    out: &mut String,
    operator: Binary,
    left: &Node,
    right: &Node,
) -> Result<(), AllocError>
    ensures { OnOk result (Wrote out.old (pieces (t.Binary operator (tree_of left.now) (tree_of right.now))) out.new) }
{
    write_at(out, left_of(operator), left)?;
    write_apart(out, sign_of(operator))?;
    write_at(out, right_of(operator), right)
}

/// Writes a condition with its two branches.
#[cycle(printer)]
fn write_if(out: &mut String, condition: &Node, yes: &Node, no: &Node) -> Result<(), AllocError>
    ensures { OnOk result (Wrote out.old (pieces (t.If (tree_of condition.now) (tree_of yes.now) (tree_of no.now))) out.new) }
{
    write_sign(out, Sign::If)?;
    write_blank(out)?;
    write_bare(out, condition)?;
    write_apart(out, Sign::Then)?;
    write_bare(out, yes)?;
    write_apart(out, Sign::Else)?;
    write_bare(out, no)?;
    write_blank(out)?;
    write_sign(out, Sign::Endif)
}

/// Writes a binding with its body.
#[cycle(printer)]
fn write_let(out: &mut String, name: &Text, value: &Node, body: &Node) -> Result<(), AllocError>
    ensures { OnOk result (Wrote out.old (pieces (t.Let name.now (tree_of value.now) (tree_of body.now))) out.new) }
{
    write_sign(out, Sign::Let)?;
    write_blank(out)?;
    write_name(out, name)?;
    write_apart(out, Sign::Equal)?;
    write_bare(out, value)?;
    write_apart(out, Sign::In)?;
    write_bare(out, body)
}

/// Writes the arguments of a call in parentheses.
#[cycle(printer)]
fn write_arguments(
    out: &mut String,
    arguments: &Items<Argument<Boxed<Node>>>,
) -> Result<(), AllocError>
    ensures { OnOk result (Wrote out.old (enclosed false (argument_pieces false (arguments_in arguments.now))) out.new) }
{
    write_sign(out, Sign::Open)?;
    let mut later = false;
    for argument in arguments.as_slice() {
        write_comma(out, later)?;
        write_argument(out, argument)?;
        later = true;
    }
    write_sign(out, Sign::Close)
}

/// Writes one argument.
#[cycle(printer)]
fn write_argument(out: &mut String, argument: &Argument<Boxed<Node>>) -> Result<(), AllocError>
    ensures { OnOk result (Wrote out.old (argument_pieces false (arguments_in (argument.now ∷ []))) out.new) }
{
    match argument {
        Argument::Lambda(name, body) => {
            write_name(out, name)?;
            write_apart(out, Sign::Bar)?;
            write_bare(out, body.get())
        }
        Argument::Type(package, class) => {
            write_name(out, package)?;
            write_sign(out, Sign::Colons)?;
            write_name(out, class)
        }
        Argument::Expression(value) => write_bare(out, value.get()),
    }
}
