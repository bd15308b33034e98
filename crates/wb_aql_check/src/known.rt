ghost use Rattle.std.specs.Prelude.{◌≡◌};
ghost use Rattle.wb_aql_check.specs.Names.{is_feature, is_class, is_literal};

use wb_base::Text;
use wb_metamodel::{FeatureId, Metamodel};

/// Has some class a feature of this name?
pub fn is_feature(metamodel: &Metamodel, name: &Text) -> bool
    ensures { result ≡ is_feature metamodel.now name.now }
{
    for number in 0..metamodel.feature_count() {
        let feature = metamodel.feature(FeatureId(number));
        if feature.name == *name {
            return true;
        }
    }
    false
}

/// Is this a class of the package?
pub fn is_class(metamodel: &Metamodel, owner: &Text, class: &Text) -> bool
    ensures { result ≡ is_class metamodel.now owner.now class.now }
{
    if *metamodel.package() == *owner {
        return metamodel.class_named(class.as_slice()).is_some();
    }
    false
}

/// Is this a literal of an enumeration of the package?
pub fn is_literal(metamodel: &Metamodel, owner: &Text, enumeration: &Text, literal: &Text) -> bool
    ensures { result ≡ is_literal metamodel.now owner.now enumeration.now literal.now }
{
    if *metamodel.package() != *owner {
        return false;
    }
    match metamodel.enum_named(enumeration.as_slice()) {
        Some(found) => metamodel.literal_named(found, literal.as_slice()).is_some(),
        None => false,
    }
}
