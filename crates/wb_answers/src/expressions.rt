ghost use Rattle.std.specs.Prelude.{IfSome};
ghost use Rattle.wb_spec_check.specs.Checked.{IsCheckedBy};
ghost use Rattle.wb_spec_check.specs.Units.{expression_of};
ghost use Rattle.wb_answers.specs.UnitExpressions.{IsUnitExpression};

use wb_diagram::Unit;
use wb_metamodel::Metamodel;
use wb_spec_check::CheckedViewpoint;

/// A law: in a viewpoint that was checked against a metamodel, so were the expressions of units, each in a scope that `environment` binds.
pub fn unit_expressions_are_checked(spec: &CheckedViewpoint, metamodel: &Metamodel, unit: &Unit)
    requires { IsCheckedBy metamodel.now spec.now }
    ensures { IfSome (expression_of spec.now unit.now) (IsUnitExpression metamodel.now) }
{}
