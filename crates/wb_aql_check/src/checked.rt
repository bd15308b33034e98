ghost use Rattle.std.specs.Prelude.{◌≡◌, []};
ghost use Rattle.wb_aql_check.specs.Checked.{HasKnownNames};
ghost use Rattle.wb_aql_check.specs.declared.checked.Origin.TheVariants as o;

use std::alloc::Global;
use std::marker::Model;
use wb_aql_syntax::Expr;
use wb_base::{List, Text};
use wb_metamodel::ClassId;

/// What is evaluated: an expression, or all objects of a class.
pub enum Origin {
    Expr(Expr),
    /// It stands for an expression that is absent.
    Extent(ClassId),
}

impl Drop for Origin {
    fn drop(self) {
        match self {
            Origin::Expr(_expr) => {}
            Origin::Extent(_class) => {}
        }
    }
}

/// What was checked, with the variables that were in scope. Contracts see the two as a pair.
pub struct Checked {
    origin: Origin,
    scope: List<Text>,
}

impl Drop for Checked {
    fn drop(self) {
        let Checked {
            origin: _origin,
            scope: _scope,
        } = self;
    }
}

impl Model for Checked {
    ghost use Rattle.std.specs.Prelude.{List, ℕ};
    ghost use Rattle.wb_aql_check.specs.Checked.{HasKnownNames};
    ghost use Rattle.wb_aql_check.specs.declared.checked.Origin.{Origin};
    ghost use Rattle.wb_aql_check.specs.contracts.checked.Origin as row;
    ghost use Rattle.std.specs.Coded.{coded×, coded_list, coded_ℕ};

    ghost Value = { Origin × List (List ℕ) };

    ghost coded = { coded× row.the_row.coded (coded_list (coded_list coded_ℕ)) };

    ghost view = { λ c. (c.origin, c.scope) };

    ghost invariant = { λ c. HasKnownNames c.origin c.scope };
}

impl Checked {
    pub(crate) fn new(origin: Origin, scope: List<Text>) -> Checked
        requires { HasKnownNames origin scope }
        ensures { result ≡ (origin, scope) }
    {
        Checked { origin, scope }
    }

    /// All objects of a class, with nothing in scope. This takes no memory.
    pub fn extent(alloc: Global, class: ClassId) -> Checked
        ensures { result ≡ (o.Extent class, []) }
    {
        Checked {
            origin: Origin::Extent(class),
            scope: List::new(alloc),
        }
    }

    pub fn origin(&self) -> &Origin
        ensures is { result.now ≡ self.now.0 }
        ensures known { HasKnownNames self.now.0 self.now.1 }
    {
        &self.origin
    }

    pub fn scope(&self) -> &[Text]
        ensures { result.now ≡ self.now.1 }
    {
        self.scope.as_slice()
    }
}
