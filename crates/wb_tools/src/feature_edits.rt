ghost use Rattle.std.specs.Prelude.{◌≡◌, ◌<◌, length, IfOk};
ghost use Rattle.wb_tools.specs.declared.feature_sorts.Way.TheVariants.{Contain};
ghost use Rattle.wb_model.specs.GivenEdits.{EditIsKnown};
ghost use Rattle.wb_tools.specs.FeatureEdits.{at_place, change_of, creation, feature_in, moving};

use crate::feature_sorts::Way;
use crate::refusals::ToolRefusal;
use std::alloc::{AllocError, Global};
use wb_base::Duplicate;
use wb_json::Name;
use wb_metamodel::{ClassId, FeatureId, ObjectId};
use wb_model::{Edit, Model, ModelRefusal};
use wb_store::{Place, Scalar};

/// The feature of this name that an object has.
#[tactic(auto, unfolding(crate::specs::FeatureEdits::feature_in))]
fn feature_in(model: &Model, o: ObjectId, name: &Name) -> Result<FeatureId, ModelRefusal>
    ensures is { result ≡ feature_in model.now o name.now }
    ensures known { IfOk result (λ f. f < length model.now.metamodel.features) }
{
    match model.kind(o) {
        None => Err(ModelRefusal::UnknownObject),
        Some(class) => {
            match model
                .metamodel()
                .feature_named(class, name.as_str().as_bytes())
            {
                None => Err(ModelRefusal::KindMismatch),
                Some(f) => Ok(f),
            }
        }
    }
}

/// The same at a place of a tool.
pub fn feature_at(
    place: u32,
    model: &Model,
    o: ObjectId,
    name: &Name,
) -> Result<FeatureId, ToolRefusal>
    ensures is { result ≡ at_place place (feature_in model.now o name.now) }
    ensures known { IfOk result (λ f. f < length model.now.metamodel.features) }
{
    match feature_in(model, o, name) {
        Ok(f) => Ok(f),
        Err(refusal) => Err(ToolRefusal::Model(place, refusal)),
    }
}

/// The edit that makes an object in a reference of another.
#[tactic(auto, unfolding(crate::specs::FeatureEdits::creation))]
pub fn creation(
    model: &Model,
    container: ObjectId,
    class: ClassId,
    name: &Name,
) -> Result<Edit, ModelRefusal>
    requires { class < length model.now.metamodel.classes }
    ensures is { result ≡ creation model.now container class name.now }
    ensures known { IfOk result (EditIsKnown model.now.metamodel) }
{
    match feature_in(model, container, name) {
        Ok(f) => Ok(Edit::Create {
            class,
            place: Place::In(container, f),
        }),
        Err(refusal) => Err(refusal),
    }
}

/// The edit that moves an object into a reference of another.
#[tactic(auto, unfolding(crate::specs::FeatureEdits::moving))]
pub fn moving(
    model: &Model,
    object: ObjectId,
    container: ObjectId,
    name: &Name,
) -> Result<Edit, ModelRefusal>
    ensures is { result ≡ moving model.now object container name.now }
    ensures known { IfOk result (EditIsKnown model.now.metamodel) }
{
    if model.kind(object).is_none() {
        return Err(ModelRefusal::UnknownObject);
    }
    match feature_in(model, container, name) {
        Ok(feature) => Ok(Edit::MoveTo {
            object,
            container,
            feature,
        }),
        Err(refusal) => Err(refusal),
    }
}

/// The edit that a value asks for, if it asks for one.
pub fn change_of(
    alloc: Global,
    way: Way,
    object: ObjectId,
    feature: FeatureId,
    value: &Scalar,
) -> Result<Option<Edit>, AllocError>
    ensures { IfOk result (λ change. change ≡ change_of way object feature value.now) }
{
    match way {
        Way::Contain => Ok(containing(object, feature, value)),
        Way::Set => {
            let value = value.copy(alloc)?;
            Ok(Some(Edit::Set {
                object,
                feature,
                value,
            }))
        }
        Way::Add => {
            let value = value.copy(alloc)?;
            Ok(Some(Edit::Add {
                object,
                feature,
                value,
            }))
        }
        Way::Take => {
            let value = value.copy(alloc)?;
            Ok(Some(Edit::Take {
                object,
                feature,
                value,
            }))
        }
    }
}

fn containing(container: ObjectId, feature: FeatureId, value: &Scalar) -> Option<Edit>
    ensures { result ≡ change_of Contain container feature value.now }
{
    match value {
        Scalar::Object(p) => Some(Edit::MoveTo {
            object: *p,
            container,
            feature,
        }),
        Scalar::Int(_) => None,
        Scalar::Bool(_) => None,
        Scalar::Text(_) => None,
        Scalar::Literal(_, _) => None,
    }
}
