ghost use Rattle.std.specs.Prelude.{◌≡◌, ◌<◌, find, length, IfSome};
ghost use Rattle.wb_metamodel.specs.Checks.{is_name_of};
ghost use Rattle.wb_metamodel.specs.Metamodel.{feature_at, numbers};
ghost use Rattle.wb_metamodel.specs.WellFormed.{KindIsKnown};
ghost use Rattle.wb_model_json.specs.ModelFile.{feature_for};

use wb_metamodel::{ClassId, Feature, FeatureId, Metamodel};

/// The feature of that name of a class, or else the first of that name in the metamodel.

pub fn feature_for(metamodel: &Metamodel, class: ClassId, name: &[u8]) -> Option<FeatureId>
    requires { class < length metamodel.now.classes }
    ensures same { result ≡ feature_for metamodel.now class name.now }
    ensures known { IfSome result (λ f. f < length metamodel.now.features) }
{
    match metamodel.feature_named(class, name) {
        Some(feature) => Some(feature),
        None => feature_anywhere(metamodel, name),
    }
}

fn feature_anywhere(metamodel: &Metamodel, name: &[u8]) -> Option<FeatureId>
    ensures same { result ≡ find (is_name_of metamodel.now name.now) (numbers (length metamodel.now.features)) }
    ensures known { IfSome result (λ f. f < length metamodel.now.features) }
{
    for number in 0..metamodel.feature_count() {
        if has_name(metamodel, FeatureId(number), name) {
            return Some(FeatureId(number));
        }
    }
    None
}

fn has_name(metamodel: &Metamodel, feature: FeatureId, name: &[u8]) -> bool
    requires { feature < length metamodel.now.features }
    ensures { result ≡ is_name_of metamodel.now name.now feature }
{
    metamodel.feature(feature).name.as_slice() == name
}

/// The feature of a number; the numbers in its kind are those of the metamodel.
pub fn feature_at(metamodel: &Metamodel, number: FeatureId) -> &Feature
    requires { number < length metamodel.now.features }
    ensures same { feature_at metamodel.now number ≡ Some result.now }
    ensures known { KindIsKnown metamodel.now result.now.kind }
{
    metamodel.well_formed();
    metamodel.feature(number)
}
