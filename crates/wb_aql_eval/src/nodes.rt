ghost use Rattle.std.specs.Prelude.{◌≡◌, [], ◌∷◌, IfOk, OnOk};
ghost use Rattle.wb_aql_values.specs.declared.values.Value.TheVariants.{One};
ghost use Rattle.wb_aql_grammar.specs.View.{tree_of, trees_in, arguments_in};
ghost use Rattle.wb_aql_values.specs.Values.{members, collection, sort_of};
ghost use Rattle.wb_aql_values.specs.Readings.{done, given, gather, of_each};
ghost use Rattle.wb_aql_values.specs.Runs.{Gives, Leaves};
ghost use Rattle.wb_aql_eval.specs.Context.{IsFit, IsValueIn, IsWithin, run_in, sense_for, sense_of};
ghost use Rattle.wb_aql_eval.specs.Scopes.{bound, values_of};
ghost use Rattle.wb_aql_eval.specs.Operators.{unary};
ghost use Rattle.wb_aql_eval.specs.Features.{feature_of};
ghost use Rattle.wb_aql_eval.specs.Meaning.{after, meaning, collected, called, operated, continued, chosen, sort_named, put_last};
ghost use Rattle.wb_aql_eval.specs.Iterations.{iterated, sifted, first_that, tested, or_null};

use crate::calls::{call, call_with_class, call_with_value, iteration_called, service_called};
use crate::features::feature_of;
use crate::literals::{constant, integer, literal, sort_named, text};
use crate::members::or_null;
use crate::operators::{combined, decided, truth, unary};
use crate::scope::{Context, Scope, value_of};
use sqlite_items::{Boxed, Items};
use wb_aql_check::Iteration;
use wb_aql_syntax::{Argument, Binary, CallKind, CollectionKind, Node, Unary};
use wb_aql_values::{Gathered, Halt, Reads, Value, collection, flag};
use wb_base::{Duplicate, List, Text};
use wb_model::Scalar;

/// The value of a node, and the cells that are read for it.
#[cycle(eval)]
pub fn eval_node<'a>(
    context: &'a Context<'a>,
    node: &'a Node,
    reads: &mut Reads,
) -> Result<Value, Halt>
    requires { IsWithin context.now }
    ensures value { Gives (run_in context.now (sense_of context.now (tree_of node.now)) reads.old) result reads.new }
    ensures bounded { IsFit context.now result }
{
    match node {
        Node::Integer(value) => integer(*value),
        Node::Text(value) => text(context.alloc, value),
        Node::Constant(value) => Ok(constant(*value)),
        Node::Variable(name) => Ok(value_of(context.alloc, &context.scope, name)?),
        Node::Literal(_owner, enumeration, name) => {
            Ok(literal(context.model.metamodel(), enumeration, name))
        }
        Node::Collection(kind, elements) => { eval_elements(context, *kind, elements, reads) }
        Node::Unary(operator, operand) => { eval_unary(context, *operator, operand.get(), reads) }
        Node::Binary(operator, left, right) => {
            eval_binary(context, *operator, left.get(), right.get(), reads)
        }
        Node::If(condition, yes, no) => {
            eval_if(context, condition.get(), yes.get(), no.get(), reads)
        }
        Node::Let(name, value, body) => { eval_let(context, name, value.get(), body.get(), reads) }
        Node::Feature(receiver, name) => { eval_feature(context, receiver.get(), name, reads) }
        Node::Call(kind, receiver, name, arguments) => {
            eval_call(context, *kind, receiver.get(), name, arguments, reads)
        }
    }
}

#[cycle(eval)]
fn eval_unary<'a>(
    context: &'a Context<'a>,
    operator: Unary,
    operand: &'a Node,
    reads: &mut Reads,
) -> Result<Value, Halt>
    requires { IsWithin context.now }
    ensures value { Gives (run_in context.now (after (sense_of context.now (tree_of operand.now)) (λ v. given (unary operator v))) reads.old) result reads.new }
    ensures bounded { IsFit context.now result }
{
    let value = eval_node(context, operand, reads)?;
    unary(operator, &value)
}

#[cycle(eval)]
fn eval_binary<'a>(
    context: &'a Context<'a>,
    operator: Binary,
    left: &'a Node,
    right: &'a Node,
    reads: &mut Reads,
) -> Result<Value, Halt>
    requires { IsWithin context.now }
    ensures value { Gives (run_in context.now (operated context.now.model.now.metamodel operator (sense_of context.now (tree_of left.now)) (sense_of context.now (tree_of right.now))) reads.old) result reads.new }
    ensures bounded { IsFit context.now result }
{
    let left = eval_node(context, left, reads)?;
    eval_right(context, operator, &left, right, reads)
}

/// The right side, where the left one does not decide. It stands apart, so that a long chain keeps little of each operator.
#[cycle(eval)]
fn eval_right<'a>(
    context: &'a Context<'a>,
    operator: Binary,
    left: &Value,
    right: &'a Node,
    reads: &mut Reads,
) -> Result<Value, Halt>
    requires bounded { IsValueIn context.now left.now }
    requires within { IsWithin context.now }
    ensures value { Gives (run_in context.now (continued context.now.model.now.metamodel operator (sense_of context.now (tree_of right.now)) left.now) reads.old) result reads.new }
    ensures bounded { IsFit context.now result }
{
    if let Some(value) = decided(operator, left)? {
        return Ok(value);
    }
    let right = eval_node(context, right, reads)?;
    combined(
        context.alloc,
        context.model.metamodel(),
        operator,
        left,
        &right,
    )
}

#[cycle(eval)]
fn eval_if<'a>(
    context: &'a Context<'a>,
    condition: &'a Node,
    yes: &'a Node,
    no: &'a Node,
    reads: &mut Reads,
) -> Result<Value, Halt>
    requires { IsWithin context.now }
    ensures value { Gives (run_in context.now (chosen (sense_of context.now (tree_of condition.now)) (sense_of context.now (tree_of yes.now)) (sense_of context.now (tree_of no.now))) reads.old) result reads.new }
    ensures bounded { IsFit context.now result }
{
    let condition = eval_node(context, condition, reads)?;
    if truth(&condition)? {
        eval_node(context, yes, reads)
    } else {
        eval_node(context, no, reads)
    }
}

#[cycle(eval)]
fn eval_let<'a>(
    context: &'a Context<'a>,
    name: &'a Text,
    value: &'a Node,
    body: &'a Node,
    reads: &mut Reads,
) -> Result<Value, Halt>
    requires { IsWithin context.now }
    ensures value { Gives (run_in context.now (after (sense_of context.now (tree_of value.now)) (λ v. meaning context.now.model.now.metamodel (tree_of body.now) (bound name.now v (values_of context.now.scope)))) reads.old) result reads.new }
    ensures bounded { IsFit context.now result }
{
    let value = eval_node(context, value, reads)?;
    let inner = Context {
        alloc: context.alloc,
        model: context.model,
        scope: Scope::Inner(&context.scope, &*name, &value),
    };
    eval_node(&inner, &*body, reads)
}

#[cycle(eval)]
fn eval_feature<'a>(
    context: &'a Context<'a>,
    receiver: &'a Node,
    name: &'a Text,
    reads: &mut Reads,
) -> Result<Value, Halt>
    requires { IsWithin context.now }
    ensures value { Gives (run_in context.now (after (sense_of context.now (tree_of receiver.now)) (feature_of context.now.model.now.metamodel name.now)) reads.old) result reads.new }
    ensures bounded { IsFit context.now result }
{
    let receiver = eval_node(context, receiver, reads)?;
    feature_of(context.alloc, &receiver, name, context.model, reads)
}

#[cycle(eval)]
fn eval_elements<'a>(
    context: &'a Context<'a>,
    kind: CollectionKind,
    elements: &'a Items<Node>,
    reads: &mut Reads,
) -> Result<Value, Halt>
    requires { IsWithin context.now }
    ensures value { Gives (run_in context.now (collected context.now.model.now.metamodel (sort_named kind) [] (trees_in elements.now) (values_of context.now.scope)) reads.old) result reads.new }
    ensures bounded { IsFit context.now result }
{
    let mut gathered = Gathered::new(context.alloc, sort_named(kind));
    for element in elements.as_slice() {
        put_element(context, element, &mut gathered, reads)?;
    }
    Ok(gathered.into_value(context.alloc)?)
}

#[cycle(eval)]
fn put_element<'a>(
    context: &'a Context<'a>,
    element: &'a Node,
    gathered: &mut Gathered,
    reads: &mut Reads,
) -> Result<(), Halt>
    requires within { IsWithin context.now }
    requires gathered { IsValueIn context.now (collection gathered.old.0 gathered.old.1) }
    ensures sort { OnOk result (gathered.new.0 ≡ gathered.old.0) }
    ensures bounded { OnOk result (IsValueIn context.now (collection gathered.new.0 gathered.new.1)) }
    ensures members { Leaves (run_in context.now (put_last gathered.old.0 gathered.old.1 (sense_of context.now (tree_of element.now))) reads.old) result gathered.new.1 reads.new }
{
    let value = eval_node(context, element, reads)?;
    gathered.put(value)
}

#[cycle(eval)]
fn eval_call<'a>(
    context: &'a Context<'a>,
    kind: CallKind,
    receiver: &'a Node,
    name: &'a Text,
    arguments: &'a Items<Argument<Boxed<Node>>>,
    reads: &mut Reads,
) -> Result<Value, Halt>
    requires { IsWithin context.now }
    ensures value { Gives (run_in context.now (after (sense_of context.now (tree_of receiver.now)) (λ v. called context.now.model.now.metamodel kind name.now v (arguments_in arguments.now) (values_of context.now.scope))) reads.old) result reads.new }
    ensures bounded { IsFit context.now result }
{
    let receiver = eval_node(context, receiver, reads)?;
    match arguments.as_slice() {
        [] => call(
            context.alloc,
            context.model,
            service_called(kind, name.as_slice()),
            &receiver,
            reads,
        ),
        [argument] => eval_argument(context, kind, &receiver, name, argument, reads),
        _ => Ok(Value::Null),
    }
}

/// A service with one argument, which is evaluated first.
#[cycle(eval)]
fn eval_argument<'a>(
    context: &'a Context<'a>,
    kind: CallKind,
    receiver: &Value,
    name: &Text,
    argument: &'a Argument<Boxed<Node>>,
    reads: &mut Reads,
) -> Result<Value, Halt>
    requires bounded { IsValueIn context.now receiver.now }
    requires within { IsWithin context.now }
    ensures value { Gives (run_in context.now (called context.now.model.now.metamodel kind name.now receiver.now (arguments_in (argument.now ∷ [])) (values_of context.now.scope)) reads.old) result reads.new }
    ensures bounded { IsFit context.now result }
{
    match argument {
        Argument::Lambda(variable, body) => match iteration_called(kind, name.as_slice()) {
            Some(iteration) => {
                let body = body.get();
                eval_lambda(context, iteration, variable, body, receiver, reads)
            }
            None => Ok(Value::Null),
        },
        Argument::Type(_, class) => {
            let service = service_called(kind, name.as_slice());
            call_with_class(
                context.alloc,
                context.model,
                service,
                receiver,
                class,
                reads,
            )
        }
        Argument::Expression(value) => {
            let value = eval_node(context, value.get(), reads)?;
            call_with_value(
                context.alloc,
                context.model,
                service_called(kind, name.as_slice()),
                receiver,
                value,
                reads,
            )
        }
    }
}

/// A service with a lambda.
#[cycle(eval)]
fn eval_lambda<'a>(
    context: &'a Context<'a>,
    iteration: Iteration,
    variable: &'a Text,
    body: &'a Node,
    receiver: &Value,
    reads: &mut Reads,
) -> Result<Value, Halt>
    requires bounded { IsValueIn context.now receiver.now }
    requires within { IsWithin context.now }
    ensures value { Gives (run_in context.now (iterated iteration (sense_for context.now variable.now (tree_of body.now)) receiver.now) reads.old) result reads.new }
    ensures bounded { IsFit context.now result }
{
    match iteration {
        Iteration::Select => { eval_sifted(context, variable, body, true, receiver, reads) }
        Iteration::Reject => { eval_sifted(context, variable, body, false, receiver, reads) }
        Iteration::Collect => { eval_collected(context, variable, body, receiver, reads) }
        Iteration::Exists => {
            let found = eval_first(context, variable, body, true, receiver, reads)?;
            Ok(flag(found.is_some()))
        }
        Iteration::ForAll => {
            let found = eval_first(context, variable, body, false, receiver, reads)?;
            Ok(flag(!found.is_some()))
        }
        Iteration::Any => {
            let found = eval_first(context, variable, body, true, receiver, reads)?;
            Ok(or_null(found))
        }
    }
}

/// The members of which the expression is true, or false.
#[cycle(eval)]
fn eval_sifted<'a>(
    context: &'a Context<'a>,
    variable: &'a Text,
    body: &'a Node,
    wanted: bool,
    receiver: &Value,
    reads: &mut Reads,
) -> Result<Value, Halt>
    requires bounded { IsValueIn context.now receiver.now }
    requires within { IsWithin context.now }
    ensures value { Gives (run_in context.now (after (sifted (sense_for context.now variable.now (tree_of body.now)) wanted (members receiver.now)) (λ xs. done (collection (sort_of receiver.now) xs))) reads.old) result reads.new }
    ensures bounded { IsFit context.now result }
{
    let mut kept = List::new(context.alloc);
    for member in receiver.members() {
        if eval_test(context, variable, body, member, reads)? == wanted {
            kept.push(member.copy(context.alloc)?)?;
        }
    }
    Ok(collection(receiver.sort(), kept))
}

/// What the expression is of each member, put together.
#[cycle(eval)]
fn eval_collected<'a>(
    context: &'a Context<'a>,
    variable: &'a Text,
    body: &'a Node,
    receiver: &Value,
    reads: &mut Reads,
) -> Result<Value, Halt>
    requires bounded { IsValueIn context.now receiver.now }
    requires within { IsWithin context.now }
    ensures value { Gives (run_in context.now (of_each (sort_of receiver.now) (sense_for context.now variable.now (tree_of body.now)) (members receiver.now)) reads.old) result reads.new }
    ensures bounded { IsFit context.now result }
{
    let mut gathered = Gathered::new(context.alloc, receiver.sort());
    for member in receiver.members() {
        put_member(context, variable, body, member, &mut gathered, reads)?;
    }
    Ok(gathered.into_value(context.alloc)?)
}

/// What the expression is of a member, put last.
#[cycle(eval)]
fn put_member<'a>(
    context: &'a Context<'a>,
    variable: &'a Text,
    body: &'a Node,
    member: &Scalar,
    gathered: &mut Gathered,
    reads: &mut Reads,
) -> Result<(), Halt>
    requires bounded { IsValueIn context.now (One member.now) }
    requires within { IsWithin context.now }
    requires gathered { IsValueIn context.now (collection gathered.old.0 gathered.old.1) }
    ensures sort { OnOk result (gathered.new.0 ≡ gathered.old.0) }
    ensures bounded { OnOk result (IsValueIn context.now (collection gathered.new.0 gathered.new.1)) }
    ensures members { Leaves (run_in context.now (gather gathered.old.0 (sense_for context.now variable.now (tree_of body.now)) gathered.old.1 member.now) reads.old) result gathered.new.1 reads.new }
{
    let value = eval_member(context, variable, body, member, reads)?;
    gathered.put(value)
}

/// The first member of which the expression is true, or false.
#[cycle(eval)]
fn eval_first<'a>(
    context: &'a Context<'a>,
    variable: &'a Text,
    body: &'a Node,
    wanted: bool,
    receiver: &Value,
    reads: &mut Reads,
) -> Result<Option<Scalar>, Halt>
    requires bounded { IsValueIn context.now receiver.now }
    requires within { IsWithin context.now }
    ensures value { Gives (run_in context.now (first_that (sense_for context.now variable.now (tree_of body.now)) wanted (members receiver.now)) reads.old) result reads.new }
    ensures bounded { IfOk result (λ found. IsValueIn context.now (or_null found)) }
{
    for member in receiver.members() {
        if eval_test(context, variable, body, member, reads)? == wanted {
            return Ok(Some(member.copy(context.alloc)?));
        }
    }
    Ok(None)
}

/// Is the expression true of a member?
#[cycle(eval)]
fn eval_test<'a>(
    context: &'a Context<'a>,
    variable: &'a Text,
    body: &'a Node,
    member: &Scalar,
    reads: &mut Reads,
) -> Result<bool, Halt>
    requires bounded { IsValueIn context.now (One member.now) }
    requires within { IsWithin context.now }
    ensures value { Gives (run_in context.now (tested (sense_for context.now variable.now (tree_of body.now)) member.now) reads.old) result reads.new }
{
    truth(&eval_member(context, variable, body, member, reads)?)
}

/// The value of the expression for one member.
#[cycle(eval)]
fn eval_member<'a>(
    context: &'a Context<'a>,
    variable: &'a Text,
    body: &'a Node,
    member: &Scalar,
    reads: &mut Reads,
) -> Result<Value, Halt>
    requires bounded { IsValueIn context.now (One member.now) }
    requires within { IsWithin context.now }
    ensures value { Gives (run_in context.now (sense_for context.now variable.now (tree_of body.now) member.now) reads.old) result reads.new }
    ensures bounded { IsFit context.now result }
{
    let value = Value::One(member.copy(context.alloc)?);
    let inner = Context {
        alloc: context.alloc,
        model: context.model,
        scope: Scope::Inner(&context.scope, &*variable, &value),
    };
    eval_node(&inner, &*body, reads)
}
