ghost use Rattle.std.specs.Prelude.{◌≡◌, IfOk};
ghost use Rattle.wb_aql_check.specs.Checked.{IsChecked, checked, refusal_of};
ghost use Rattle.wb_base.specs.Answering.{AsDefined};
ghost use Rattle.wb_aql_check.specs.declared.checked.Origin.TheVariants as o;

use crate::checked::{Checked, Origin};
use crate::refusal::CheckRefusal;
use crate::scope::Scope;
use crate::walk::check_node;
use std::alloc::{AllocError, Global};
use wb_aql_syntax::Expr;
use wb_base::{Duplicate, List, Text};
use wb_metamodel::Metamodel;

/// The expression with the variables in scope, if each of its names is known; else the first that is not,
/// from left to right as it is printed.
pub fn check(
    alloc: Global,
    expr: Expr,
    scope: &[Text],
    metamodel: &Metamodel,
) -> Result<Checked, CheckRefusal>
    ensures answered { AsDefined refusal_of (checked metamodel.now scope.now expr) result }
    ensures value { IfOk result (λ checked. checked ≡ (o.Expr expr, scope.now)) }
    ensures checked { IfOk result (λ checked. IsChecked metamodel.now checked) }
{
    check_node(alloc, metamodel, &Scope::Outer(scope), expr.node())?;
    let scope = copied(alloc, scope)?;
    Ok(Checked::new(Origin::Expr(expr), scope))
}

fn copied(alloc: Global, names: &[Text]) -> Result<List<Text>, AllocError>
    ensures { IfOk result (λ copies. copies ≡ names.now) }
{
    let mut copies = Vec::new(alloc);
    for name in names {
        copies.push(name.copy(alloc)?)?;
    }
    Ok(List::from_vec(copies))
}
