ghost use Rattle.std.specs.Prelude.{◌≡◌, IfOk};
ghost use Rattle.wb_aql_grammar.specs.Expressions.{SpellsText};
ghost use Rattle.wb_aql_syntax.specs.Printed.{printed};

use crate::printer::print_tree;
use std::alloc::{AllocError, Global};
use wb_aql_grammar::Expr;
use wb_base::Text;

/// The canonical spelling of an expression, which `parse` reads as the expression again.
#[tactic(auto, using(crate::proofs::ReadBack::read_back))]
pub fn print(alloc: Global, e: &Expr) -> Result<Text, AllocError>
    ensures canonical { IfOk result (λ text. text ≡ printed e.now) }
    ensures spells { IfOk result (λ text. SpellsText text e.now) }
{
    print_tree(alloc, e.node())
}
