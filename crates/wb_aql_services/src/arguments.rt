ghost use Rattle.std.specs.Prelude.{◌≡◌};
ghost use Rattle.wb_aql_services.specs.Asked.{type_in, value_in};
ghost use Rattle.wb_aql_values.specs.declared.values.Value.TheVariants.{Null};

use wb_aql_values::Value;
use wb_metamodel::ClassId;

/// What a service is handed between its parentheses.
#[derive(Drop)]
pub enum Argument {
    /// A type.
    Class(ClassId),
    Of(Value),
}

/// The type that is asked for, if one is.
pub fn type_in(arguments: &[Argument]) -> Option<ClassId>
    ensures { result ≡ type_in arguments.now }
{
    match arguments {
        [Argument::Class(class), ..] => Some(*class),
        [Argument::Of(_), ..] => None,
        [] => None,
    }
}

/// The value that is handed in; null where none is.
pub fn value_in<'a>(arguments: &'a [Argument], null: &'a Value) -> &'a Value
    requires { null.now ≡ Null }
    ensures { result.now ≡ value_in arguments.now }
{
    match arguments {
        [Argument::Of(value), ..] => value,
        [Argument::Class(_), ..] => null,
        [] => null,
    }
}
