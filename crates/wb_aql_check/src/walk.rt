ghost use Rattle.std.specs.Prelude.{◌≡◌, ◌∷◌, []};
ghost use Rattle.wb_aql_grammar.specs.View.{tree_of, trees_in, arguments_in};
ghost use Rattle.wb_aql_check.specs.invariants.Walks.{Tells};
ghost use Rattle.wb_aql_check.specs.Names.{first_wrong, first_wrong_element, first_wrong_argument};
ghost use Rattle.wb_aql_check.specs.Scopes.{names_of};

use crate::refusal::CheckRefusal;
use crate::scope::Scope;
use crate::single_names::{
    check_class, check_feature, check_literal, check_service, check_variable,
};
use sqlite_items::{Boxed, Items};
use std::alloc::Global;
use wb_aql_syntax::{Argument, Node};
use wb_metamodel::Metamodel;

#[cycle(check)]
pub fn check_node<'a>(
    alloc: Global,
    metamodel: &Metamodel,
    scope: &'a Scope<'a>,
    node: &'a Node,
) -> Result<(), CheckRefusal>
    ensures { Tells result (first_wrong metamodel.now (names_of scope.now) (tree_of node.now)) }
{
    match node {
        Node::Integer(_) => Ok(()),
        Node::Text(_) => Ok(()),
        Node::Constant(_) => Ok(()),
        Node::Variable(name) => check_variable(alloc, scope, name),
        Node::Literal(owner, enumeration, literal) => {
            check_literal(alloc, metamodel, owner, enumeration, literal)
        }
        Node::Collection(_, elements) => check_elements(alloc, metamodel, scope, elements),
        Node::Unary(_, operand) => check_node(alloc, metamodel, scope, operand.get()),
        Node::Binary(_, left, right) => {
            check_node(alloc, metamodel, scope, left.get())?;
            check_node(alloc, metamodel, scope, right.get())
        }
        Node::If(condition, yes, no) => {
            check_node(alloc, metamodel, scope, condition.get())?;
            check_node(alloc, metamodel, scope, yes.get())?;
            check_node(alloc, metamodel, scope, no.get())
        }
        Node::Let(name, value, body) => {
            check_node(alloc, metamodel, scope, value.get())?;
            check_node(alloc, metamodel, &Scope::Inner(scope, name), body.get())
        }
        Node::Feature(receiver, name) => {
            check_node(alloc, metamodel, scope, receiver.get())?;
            check_feature(alloc, metamodel, name)
        }
        Node::Call(kind, receiver, name, arguments) => {
            check_node(alloc, metamodel, scope, receiver.get())?;
            check_service(alloc, *kind, name, arguments)?;
            check_arguments(alloc, metamodel, scope, arguments)
        }
    }
}

#[cycle(check)]
fn check_elements<'a>(
    alloc: Global,
    metamodel: &Metamodel,
    scope: &'a Scope<'a>,
    elements: &'a Items<Node>,
) -> Result<(), CheckRefusal>
    ensures { Tells result (first_wrong_element metamodel.now (names_of scope.now) (trees_in elements.now)) }
{
    for element in elements.as_slice() {
        check_node(alloc, metamodel, scope, element)?;
    }
    Ok(())
}

#[cycle(check)]
fn check_arguments<'a>(
    alloc: Global,
    metamodel: &Metamodel,
    scope: &'a Scope<'a>,
    arguments: &'a Items<Argument<Boxed<Node>>>,
) -> Result<(), CheckRefusal>
    ensures { Tells result (first_wrong_argument metamodel.now (names_of scope.now) (arguments_in arguments.now)) }
{
    for argument in arguments.as_slice() {
        check_argument(alloc, metamodel, scope, argument)?;
    }
    Ok(())
}

#[cycle(check)]
fn check_argument<'a>(
    alloc: Global,
    metamodel: &Metamodel,
    scope: &'a Scope<'a>,
    argument: &'a Argument<Boxed<Node>>,
) -> Result<(), CheckRefusal>
    ensures { Tells result (first_wrong_argument metamodel.now (names_of scope.now) (arguments_in (argument.now ∷ []))) }
{
    match argument {
        Argument::Lambda(variable, body) => {
            check_node(alloc, metamodel, &Scope::Inner(scope, variable), body.get())
        }
        Argument::Type(owner, class) => check_class(alloc, metamodel, owner, class),
        Argument::Expression(value) => check_node(alloc, metamodel, scope, value.get()),
    }
}
