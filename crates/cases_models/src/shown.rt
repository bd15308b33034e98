//! How answers are shown: `@2` is an object, and what else a word spells is shown as that word.
use std::alloc::AllocError;
use wb_metamodel::{ClassId, FeatureId, Metamodel, ObjectId};
use wb_model::{ModelRefusal, Scalar};

pub fn push_edited(
    shown: &mut String,
    answer: Result<(), ModelRefusal>,
) -> Result<bool, AllocError> {
    match answer {
        Ok(()) => shown.push_str("done")?,
        Err(refusal) => push_refusal(shown, refusal)?,
    }
    Ok(true)
}

pub fn push_creation(
    shown: &mut String,
    answer: Result<ObjectId, ModelRefusal>,
) -> Result<bool, AllocError> {
    match answer {
        Ok(o) => write!(shown, "created {}", o.0)?,
        Err(refusal) => push_refusal(shown, refusal)?,
    }
    Ok(true)
}

fn push_refusal(shown: &mut String, refusal: ModelRefusal) -> Result<(), AllocError> {
    match refusal {
        ModelRefusal::UnknownObject => shown.push_str("UnknownObject"),
        ModelRefusal::KindMismatch => shown.push_str("KindMismatch"),
        ModelRefusal::UpperBound => shown.push_str("UpperBound"),
        ModelRefusal::ContainmentCycle => shown.push_str("ContainmentCycle"),
        ModelRefusal::AbstractClass => shown.push_str("AbstractClass"),
        ModelRefusal::TooManyObjects => shown.push_str("TooManyObjects"),
        ModelRefusal::IdsSpent => shown.push_str("IdsSpent"),
        ModelRefusal::NoMemory => Err(AllocError),
    }
}

/// The values with spaces between them, `none` where there are none.
pub fn push_values(shown: &mut String, values: &[Scalar]) -> Result<(), AllocError> {
    let mut before = "";
    for value in values {
        shown.push_str(before)?;
        push_value(shown, value)?;
        before = " ";
    }
    push_none(shown, values.is_empty())
}

fn push_value(shown: &mut String, value: &Scalar) -> Result<(), AllocError> {
    match value {
        Scalar::Int(number) => write!(shown, "{number}"),
        Scalar::Bool(flag) => write!(shown, "{flag}"),
        Scalar::Text(text) => write!(shown, "'{}", text.as_str()),
        Scalar::Literal(enumeration, literal) => write!(shown, "{}.{literal}", enumeration.0),
        Scalar::Object(o) => write!(shown, "@{}", o.0),
    }
}

pub fn push_objects(shown: &mut String, objects: &[ObjectId]) -> Result<(), AllocError> {
    let mut before = "";
    for o in objects {
        write!(shown, "{before}@{}", o.0)?;
        before = " ";
    }
    push_none(shown, objects.is_empty())
}

/// Slots, each as an object and a feature.
pub fn push_places(
    shown: &mut String,
    metamodel: &Metamodel,
    places: &[(ObjectId, FeatureId)],
) -> Result<(), AllocError> {
    let mut before = "";
    for (o, f) in places {
        write!(shown, "{before}@{} ", o.0)?;
        push_feature(shown, metamodel, *f)?;
        before = " ";
    }
    push_none(shown, places.is_empty())
}

pub fn push_none(shown: &mut String, is_empty: bool) -> Result<(), AllocError> {
    if is_empty {
        return shown.push_str("none");
    }
    Ok(())
}

pub fn push_class(shown: &mut String, metamodel: &Metamodel, c: ClassId) -> Result<(), AllocError> {
    if c.0 < metamodel.class_count() {
        return shown.push_str(metamodel.class_name(c).as_str());
    }
    shown.push_str("?")
}

/// A feature as `Book.author`, with the class that declares it.
pub fn push_feature(
    shown: &mut String,
    metamodel: &Metamodel,
    f: FeatureId,
) -> Result<(), AllocError> {
    if f.0 < metamodel.feature_count() {
        let feature = metamodel.feature(f);
        push_class(shown, metamodel, feature.owner)?;
        return write!(shown, ".{}", feature.name.as_str());
    }
    shown.push_str("?")
}
