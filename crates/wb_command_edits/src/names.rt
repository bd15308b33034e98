ghost use Rattle.std.specs.Prelude.{◌≡◌, ◌<◌, length, IfOk};
ghost use Rattle.wb_command_edits.specs.NamedEdits.{class_named, feature_in, live, live_value};

use crate::refusal::NameRefusal;
use wb_diagram::{Given, NamedSlot};
use wb_metamodel::{ClassId, FeatureId, ObjectId, Text};
use wb_model::Model;

/// The class of an object, which must be live.
pub fn live(model: &Model, o: ObjectId) -> Result<ClassId, NameRefusal>
    ensures class { result ≡ live model.now o }
    ensures known { IfOk result (λ class. class < length model.now.metamodel.classes) }
{
    match model.kind(o) {
        Some(class) => Ok(class),
        None => Err(NameRefusal::UnknownObject),
    }
}

/// A value that is an object must be live.
pub fn live_value(model: &Model, value: &Given) -> Result<(), NameRefusal>
    ensures { result ≡ live_value model.now value.now }
{
    match value {
        Given::Object(o) => match model.kind(*o) {
            Some(_) => Ok(()),
            None => Err(NameRefusal::UnknownObject),
        },
        _ => Ok(()),
    }
}

pub fn class_named(model: &Model, name: &Text) -> Result<ClassId, NameRefusal>
    ensures class { result ≡ class_named model.now name.now }
    ensures known { IfOk result (λ class. class < length model.now.metamodel.classes) }
{
    match model.metamodel().class_named(name.as_slice()) {
        Some(class) => Ok(class),
        None => Err(NameRefusal::UnknownClass),
    }
}

/// The feature of a slot, by its name among those of the object's class.
pub fn feature_in(model: &Model, class: ClassId, slot: &NamedSlot) -> Result<FeatureId, NameRefusal>
    requires { class < length model.now.metamodel.classes }
    ensures feature { result ≡ feature_in model.now class slot.now }
    ensures known { IfOk result (λ f. f < length model.now.metamodel.features) }
{
    match model
        .metamodel()
        .feature_named(class, slot.feature.as_slice())
    {
        Some(feature) => Ok(feature),
        None => Err(NameRefusal::UnknownFeature),
    }
}
