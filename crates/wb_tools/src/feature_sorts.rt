ghost use Rattle.std.specs.Prelude.{◌≡◌, ◌<◌, length, if◌then◌else◌};
ghost use Rattle.wb_store.specs.Features.{is_many};
ghost use Rattle.wb_tools.specs.FeatureEdits.{sort_of};
ghost use Rattle.wb_tools.specs.declared.feature_sorts.FeatureSort.TheVariants.{Many, Single};

use wb_metamodel::{FeatureId, Metamodel};
use wb_store::{is_containment, is_plain};

/// How a feature may be edited.
#[derive(Clone, Copy)]
pub enum FeatureSort {
    /// A plain feature of one value.
    Single,
    /// A plain feature of many values.
    Many,
    Containment,
    /// It leads to the container, and follows from containments alone.
    Container,
}

/// What is done with a value of a feature.
#[derive(Clone, Copy)]
pub enum Way {
    Set,
    Add,
    Take,
    /// The value is an object, and is moved there.
    Contain,
}

/// The sort of a feature.
pub fn sort_of(metamodel: &Metamodel, f: FeatureId) -> FeatureSort
    requires { f < length metamodel.now.features }
    ensures { result ≡ sort_of metamodel.now f }
{
    if is_plain(metamodel, f) {
        plain_sort_of(metamodel, f)
    } else if is_containment(metamodel, f) {
        FeatureSort::Containment
    } else {
        FeatureSort::Container
    }
}

// The sort of a plain feature.
fn plain_sort_of(metamodel: &Metamodel, f: FeatureId) -> FeatureSort
    requires { f < length metamodel.now.features }
    ensures { result ≡ (if is_many metamodel.now f then Many else Single) }
{
    if metamodel.feature(f).many {
        FeatureSort::Many
    } else {
        FeatureSort::Single
    }
}
