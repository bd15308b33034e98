ghost use Rattle.std.specs.Prelude.{All};
ghost use Rattle.wb_answers.specs.Seen.{Told};
ghost use Rattle.wb_looks.specs.Looks.{HasExpression, HasMapping, look_units};

use wb_diagram::AnyKey;
use wb_spec_check::CheckedViewpoint;

/// A law: the viewpoint has an expression for each unit that a look may ask, whatever the answers.
pub fn look_units_have_expressions(spec: &CheckedViewpoint, key: &AnyKey)
    requires { HasMapping spec.now key.now }
    ensures { (told : Told) → All (HasExpression spec.now) (look_units spec.now told key.now) }
{
    let _viewpoint = spec.viewpoint();
}
