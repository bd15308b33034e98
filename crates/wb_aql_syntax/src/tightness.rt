ghost use Rattle.std.specs.Prelude.{◌≡◌};
ghost use Rattle.wb_aql_grammar.specs.View.{tree_of};
ghost use Rattle.wb_aql_syntax.specs.Canonical.{rank, stands, tightness, prefix_of, whole_of, left_of, right_of};

use wb_aql_grammar::{Binary, Node, Unary};

/// The phrases of the grammar that an operand can be, from the loosest to the tightest: each is also
/// one of those before it.
#[derive(Clone, Copy)]
pub enum Tightness {
    Expr,
    Implies,
    Or,
    Xor,
    And,
    Neg,
    Cmp,
    Sum,
    Term,
    Unary,
    Post,
    Atom,
}

impl Tightness {
    /// The place among the phrases, from the loosest.
    pub fn rank(self) -> u8
        ensures { result ≡ rank self }
    {
        match self {
            Tightness::Expr => 0,
            Tightness::Implies => 1,
            Tightness::Or => 2,
            Tightness::Xor => 3,
            Tightness::And => 4,
            Tightness::Neg => 5,
            Tightness::Cmp => 6,
            Tightness::Sum => 7,
            Tightness::Term => 8,
            Tightness::Unary => 9,
            Tightness::Post => 10,
            Tightness::Atom => 11,
        }
    }
}

/// Does a phrase of the second sort stand for one of the first?
pub fn stands(wanted: Tightness, found: Tightness) -> bool
    ensures { result ≡ stands wanted found }
{
    wanted.rank() <= found.rank()
}

/// The tightest phrase that the expression is without parentheses round it.
#[tactic(auto, using(wb_aql_grammar::proofs::Trees::trees))]
pub fn tightness_of(e: &Node) -> Tightness
    ensures { result ≡ tightness (tree_of e.now) }
{
    match e {
        Node::Unary(operator, _) => prefix_of(*operator),
        Node::Binary(operator, _, _) => whole_of(*operator),
        Node::Let(_, _, _) => Tightness::Expr,
        Node::Feature(_, _) => Tightness::Post,
        Node::Call(_, _, _, _) => Tightness::Post,
        Node::Integer(_)
        | Node::Text(_)
        | Node::Constant(_)
        | Node::Variable(_)
        | Node::Literal(_, _, _)
        | Node::Collection(_, _)
        | Node::If(_, _, _) => Tightness::Atom,
    }
}

/// The phrase of a prefix operator, which its operand has to be too.
pub fn prefix_of(operator: Unary) -> Tightness
    ensures { result ≡ prefix_of operator }
{
    match operator {
        Unary::Not => Tightness::Neg,
        Unary::Negate => Tightness::Unary,
    }
}

/// The phrase of a binary operator.
pub fn whole_of(operator: Binary) -> Tightness
    ensures { result ≡ whole_of operator }
{
    match operator {
        Binary::Implies => Tightness::Implies,
        Binary::Or => Tightness::Or,
        Binary::Xor => Tightness::Xor,
        Binary::And => Tightness::And,
        Binary::Add | Binary::Subtract => Tightness::Sum,
        Binary::Multiply | Binary::Divide => Tightness::Term,
        Binary::Equal
        | Binary::NotEqual
        | Binary::Less
        | Binary::LessEqual
        | Binary::Greater
        | Binary::GreaterEqual => Tightness::Cmp,
    }
}

/// The phrase that its left operand has to be.
pub fn left_of(operator: Binary) -> Tightness
    ensures { result ≡ left_of operator }
{
    match operator {
        Binary::Implies => Tightness::Implies,
        Binary::Or => Tightness::Or,
        Binary::Xor => Tightness::Xor,
        Binary::And => Tightness::And,
        Binary::Multiply | Binary::Divide => Tightness::Term,
        Binary::Equal
        | Binary::NotEqual
        | Binary::Less
        | Binary::LessEqual
        | Binary::Greater
        | Binary::GreaterEqual
        | Binary::Add
        | Binary::Subtract => Tightness::Sum,
    }
}

/// The phrase that its right operand has to be.
pub fn right_of(operator: Binary) -> Tightness
    ensures { result ≡ right_of operator }
{
    match operator {
        Binary::Implies => Tightness::Or,
        Binary::Or => Tightness::Xor,
        Binary::Xor => Tightness::And,
        Binary::And => Tightness::Neg,
        Binary::Add | Binary::Subtract => Tightness::Term,
        Binary::Multiply | Binary::Divide => Tightness::Unary,
        Binary::Equal
        | Binary::NotEqual
        | Binary::Less
        | Binary::LessEqual
        | Binary::Greater
        | Binary::GreaterEqual => Tightness::Sum,
    }
}
