ghost use Rattle.std.specs.Prelude.{◌≡◌, ◌++◌, true, codes, IfOk};
ghost use Rattle.wb_aql_grammar.specs.Tree as t;
ghost use Rattle.wb_aql_grammar.specs.View.{tree_of};
ghost use Rattle.wb_aql_grammar.specs.Expressions.{IsExpression, SpellsText};
ghost use Rattle.wb_aql_tokens.specs.Lexes.{is_expression_name};

use crate::expr::Node;
use std::alloc::{AllocError, Global};
use std::marker::Model;
use wb_base::Text;

/// An expression that some text spells, with at most 64 openings and 4 lambdas open at once.
pub struct Expr {
    node: Node,
}

impl Drop for Expr {
    fn drop(self) {
        let Expr { node: _node } = self;
    }
}

impl Model for Expr {
    ghost use Rattle.wb_aql_grammar.specs.Tree.{Tree};
    ghost use Rattle.wb_aql_grammar.specs.View.{tree_of};
    ghost use Rattle.wb_aql_grammar.specs.Expressions.{IsExpression};
    ghost use Rattle.wb_aql_grammar.specs.Codes.{coded_tree};

    ghost Value = { Tree };

    ghost coded = { coded_tree };

    ghost view = { λ e. tree_of e.node };

    ghost invariant = { λ e. IsExpression (tree_of e.node) };
}

impl Expr {
    pub(crate) fn new(node: Node) -> Expr
        requires { IsExpression (tree_of node) }
        ensures { result ≡ tree_of node }
    {
        Expr { node }
    }

    /// The expression of a variable, as `parse` reads it from the name. This takes no memory.
    #[tactic(auto, using(crate::proofs::Written::written))]
    pub fn variable(name: Text) -> Expr
        requires { is_expression_name name ≡ true }
        ensures tree { result ≡ t.Variable name }
        ensures spelled { SpellsText name result }
    {
        Expr::new(Node::variable(name))
    }

    /// The expression of a feature of `self`, as `parse` reads it from `self.` and the name.
    #[tactic(auto, using(crate::proofs::Written::written))]
    pub fn feature_of_self(alloc: Global, name: Text) -> Result<Expr, AllocError>
        requires { is_expression_name name ≡ true }
        ensures tree { IfOk result (λ e. e ≡ t.Feature (t.Variable (codes "self")) name) }
        ensures spelled { IfOk result (λ e. SpellsText (codes "self." ++ name) e) }
    {
        let receiver = Node::variable(Text::from_str(alloc, "self")?);
        Ok(Expr::new(Node::feature(alloc, receiver, name)?))
    }

    pub fn node(&self) -> &Node
        ensures tree { tree_of result.now ≡ self.now }
        ensures spelled { IsExpression self.now }
    {
        &self.node
    }
}
