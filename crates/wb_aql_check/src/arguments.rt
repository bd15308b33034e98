ghost use Rattle.std.specs.Prelude.{◌≡◌, [], ◌∷◌};
ghost use Rattle.wb_aql_grammar.specs.View.{arguments_in};
ghost use Rattle.wb_aql_check.specs.Services.{fits};

use crate::services::Parameters;
use sqlite_items::Boxed;
use wb_aql_syntax::{Argument, Node};

/// Are these arguments what the service takes?
pub fn fits(parameters: Parameters, arguments: &[Argument<Boxed<Node>>]) -> bool
    ensures { result ≡ fits parameters (arguments_in arguments.now) }
{
    match arguments {
        [] => matches!(parameters, Parameters::Nothing | Parameters::MaybeType),
        [argument] => fits_one(parameters, argument),
        _ => false,
    }
}

/// Is this one argument what the service takes?
fn fits_one(parameters: Parameters, argument: &Argument<Boxed<Node>>) -> bool
    ensures { result ≡ fits parameters (arguments_in (argument.now ∷ [])) }
{
    match argument {
        Argument::Lambda(_, _) => matches!(parameters, Parameters::Lambda),
        Argument::Type(_, _) => matches!(parameters, Parameters::MaybeType | Parameters::Type),
        Argument::Expression(_) => matches!(parameters, Parameters::Value),
    }
}
