ghost use Rattle.std.specs.Prelude.{◌≡◌};
ghost use Rattle.wb_aql_eval.specs.Iterations.{or_null};

use wb_aql_values::Value;
use wb_model::Scalar;

/// A member, or null.
pub fn or_null(member: Option<Scalar>) -> Value
    ensures { result ≡ or_null member }
{
    match member {
        Some(x) => Value::One(x),
        None => Value::Null,
    }
}
