ghost use Rattle.std.specs.Prelude.{◌≡◌, IfOk};
ghost use Rattle.wb_aql_grammar.specs.Tree as t;
ghost use Rattle.wb_aql_grammar.specs.View.{tree_of, trees_in, arguments_in};

use sqlite_items::{Boxed, Items};
use std::alloc::{AllocError, Global};
use wb_base::Text;

#[derive(Clone, Copy)]
pub enum Constant {
    Null,
    True,
    False,
}

#[derive(Clone, Copy)]
pub enum CollectionKind {
    Sequence,
    OrderedSet,
}

#[derive(Clone, Copy)]
pub enum Unary {
    Not,
    Negate,
}

#[derive(Clone, Copy)]
pub enum Binary {
    Implies,
    Or,
    Xor,
    And,
    Equal,
    NotEqual,
    Less,
    LessEqual,
    Greater,
    GreaterEqual,
    Add,
    Subtract,
    Multiply,
    Divide,
}

/// Is a service called by `.` or by `->`?
#[derive(Clone, Copy)]
pub enum CallKind {
    Dot,
    Arrow,
}

/// The uppermost node of a tree, and the trees below it.
pub enum Node {
    Integer(u64),
    Text(Text),
    Constant(Constant),
    Variable(Text),
    /// A package, an enumeration and a literal of it.
    Literal(Text, Text, Text),
    Collection(CollectionKind, Items<Node>),
    Unary(Unary, Boxed<Node>),
    Binary(Binary, Boxed<Node>, Boxed<Node>),
    If(Boxed<Node>, Boxed<Node>, Boxed<Node>),
    Let(Text, Boxed<Node>, Boxed<Node>),
    /// A feature of a receiver.
    Feature(Boxed<Node>, Text),
    /// A service with its receiver before and its arguments behind.
    Call(CallKind, Boxed<Node>, Text, Items<Argument<Boxed<Node>>>),
}

/// A chain of operators, features and services may be as long as a text, so it is let go in a loop.
impl Drop for Node {
    fn drop(mut self) {
        loop {
            match self {
                Node::Binary(_operator, left, right) => {
                    drop(right);
                    self = left.into_inner();
                }
                Node::Feature(receiver, _name) => self = receiver.into_inner(),
                Node::Call(_kind, receiver, _name, arguments) => {
                    drop(arguments);
                    self = receiver.into_inner();
                }
                Node::Unary(_operator, operand) => {
                    drop(operand);
                    return;
                }
                Node::If(condition, yes, no) => {
                    drop(condition);
                    drop(yes);
                    drop(no);
                    return;
                }
                Node::Let(_name, value, body) => {
                    drop(value);
                    drop(body);
                    return;
                }
                Node::Collection(_kind, elements) => {
                    drop(elements);
                    return;
                }
                Node::Literal(_owner, _enumeration, _name) => return,
                Node::Variable(_name) => return,
                Node::Integer(_value) => return,
                Node::Text(_value) => return,
                Node::Constant(_value) => return,
            }
        }
    }
}

/// An argument of a service.
pub enum Argument<E> {
    Lambda(Text, E),
    /// A package and a class of it.
    Type(Text, Text),
    Expression(E),
}

impl<E: Drop> Drop for Argument<E> {
    fn drop(self) {
        match self {
            Argument::Lambda(_name, _body) => {}
            Argument::Type(_package, _class) => {}
            Argument::Expression(_value) => {}
        }
    }
}

impl Node {
    #[tactic(auto, using(crate::proofs::Nodes::tree_unary))]
    pub fn unary(alloc: Global, operator: Unary, operand: Node) -> Result<Node, AllocError>
        ensures { IfOk result (λ e. tree_of e ≡ t.Unary operator (tree_of operand)) }
    {
        Ok(Node::Unary(operator, Boxed::new(alloc, operand)?))
    }

    #[tactic(auto, using(crate::proofs::Nodes::tree_binary))]
    pub fn binary(
        alloc: Global,
        operator: Binary,
        left: Node,
        right: Node,
    ) -> Result<Node, AllocError>
        ensures { IfOk result (λ e. tree_of e ≡ t.Binary operator (tree_of left) (tree_of right)) }
    {
        Ok(Node::Binary(
            operator,
            Boxed::new(alloc, left)?,
            Boxed::new(alloc, right)?,
        ))
    }

    #[tactic(auto, using(crate::proofs::Nodes::tree_conditional))]
    pub fn conditional(
        alloc: Global,
        condition: Node,
        yes: Node,
        no: Node,
    ) -> Result<Node, AllocError>
        ensures { IfOk result (λ e. tree_of e ≡ t.If (tree_of condition) (tree_of yes) (tree_of no)) }
    {
        Ok(Node::If(
            Boxed::new(alloc, condition)?,
            Boxed::new(alloc, yes)?,
            Boxed::new(alloc, no)?,
        ))
    }

    #[tactic(auto, using(crate::proofs::Nodes::tree_let_in))]
    pub fn let_in(alloc: Global, name: Text, value: Node, body: Node) -> Result<Node, AllocError>
        ensures { IfOk result (λ e. tree_of e ≡ t.Let name (tree_of value) (tree_of body)) }
    {
        Ok(Node::Let(name, Boxed::new(alloc, value)?, Boxed::new(alloc, body)?))
    }

    #[tactic(auto, using(crate::proofs::Nodes::tree_feature))]
    pub fn feature(alloc: Global, receiver: Node, name: Text) -> Result<Node, AllocError>
        ensures { IfOk result (λ e. tree_of e ≡ t.Feature (tree_of receiver) name) }
    {
        Ok(Node::Feature(Boxed::new(alloc, receiver)?, name))
    }

    #[tactic(auto, using(crate::proofs::Nodes::tree_call))]
    pub fn call(
        alloc: Global,
        kind: CallKind,
        receiver: Node,
        name: Text,
        arguments: Items<Argument<Boxed<Node>>>,
    ) -> Result<Node, AllocError>
        ensures { IfOk result (λ e. tree_of e ≡ t.Call kind (tree_of receiver) name (arguments_in arguments)) }
    {
        Ok(Node::Call(kind, Boxed::new(alloc, receiver)?, name, arguments))
    }

    #[tactic(auto, using(crate::proofs::Nodes::tree_collection))]
    pub fn collection(kind: CollectionKind, elements: Items<Node>) -> Node
        ensures { tree_of result ≡ t.Collection kind (trees_in elements) }
    {
        Node::Collection(kind, elements)
    }

    #[tactic(auto, using(crate::proofs::Nodes::tree_integer))]
    pub fn integer(value: u64) -> Node
        ensures { tree_of result ≡ t.Integer value }
    {
        Node::Integer(value)
    }

    #[tactic(auto, using(crate::proofs::Nodes::tree_text))]
    pub fn text(value: Text) -> Node
        ensures { tree_of result ≡ t.Text value }
    {
        Node::Text(value)
    }

    #[tactic(auto, using(crate::proofs::Nodes::tree_constant))]
    pub fn constant(value: Constant) -> Node
        ensures { tree_of result ≡ t.Const value }
    {
        Node::Constant(value)
    }

    #[tactic(auto, using(crate::proofs::Nodes::tree_variable))]
    pub fn variable(name: Text) -> Node
        ensures { tree_of result ≡ t.Variable name }
    {
        Node::Variable(name)
    }

    #[tactic(auto, using(crate::proofs::Nodes::tree_literal))]
    pub fn literal(owner: Text, enumeration: Text, name: Text) -> Node
        ensures { tree_of result ≡ t.Literal owner enumeration name }
    {
        Node::Literal(owner, enumeration, name)
    }
}
