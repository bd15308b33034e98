ghost use Rattle.std.specs.Prelude.{◌≡◌, ◌<◌, length, IfOk};
ghost use Rattle.wb_metamodel.specs.WellFormed.{KindIsKnown};
ghost use Rattle.wb_command_edits.specs.NamedEdits.{scalar_in, words_in};

use std::alloc::{AllocError, Global};
use wb_base::Duplicate;
use wb_diagram::Given;
use wb_metamodel::{FeatureId, Kind, Metamodel, Text};
use wb_model::Scalar;

/// The value that is given for a feature.
pub fn scalar_in(
    alloc: Global,
    metamodel: &Metamodel,
    feature: FeatureId,
    value: &Given,
) -> Result<Scalar, AllocError>
    requires { feature < length metamodel.now.features }
    ensures { IfOk result (λ scalar. scalar ≡ scalar_in metamodel.now feature value.now) }
{
    match value {
        Given::Int(number) => Ok(Scalar::Int(*number)),
        Given::Bool(flag) => Ok(Scalar::Bool(*flag)),
        Given::Object(o) => Ok(Scalar::Object(*o)),
        Given::Text(text) => {
            metamodel.well_formed();
            words_in(alloc, metamodel, metamodel.feature(feature).kind, text)
        }
    }
}

// A text is a literal where the kind is an enumeration that has it.
fn words_in(
    alloc: Global,
    metamodel: &Metamodel,
    kind: Kind,
    text: &Text,
) -> Result<Scalar, AllocError>
    requires { KindIsKnown metamodel.now kind }
    ensures { IfOk result (λ scalar. scalar ≡ words_in metamodel.now kind text.now) }
{
    if let Kind::Enum(enumeration) = kind {
        if let Some(literal) = metamodel.literal_named(enumeration, text.as_slice()) {
            return Ok(Scalar::Literal(enumeration, literal));
        }
    }
    Ok(Scalar::Text(text.copy(alloc)?))
}
