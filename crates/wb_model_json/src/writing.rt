ghost use Rattle.std.specs.Prelude.{◌≡◌, ◌<◌, ◌∷◌, [], All, length, IfOk, OnOk, IsSome};
ghost use Rattle.std.specs.FinMap.{keys};
ghost use Rattle.serde_json.specs.Data.{string};
ghost use Rattle.serde_json.specs.View.{view, members_view};
ghost use Rattle.wb_json.specs.ToJson.{list_json, put_all};
ghost use Rattle.wb_metamodel.specs.Metamodel.{features_of};
ghost use Rattle.wb_store.specs.Contents.{kind};
ghost use Rattle.wb_model_json.specs.Written.{text_of, row_text, row_data, row_of_class, model_data, object_data, object_of_class, slots_data, slot_data, scalar_data, single_data, literal_text, class_name, feature_name, named_slots, number_data};

use serde_json::{Map, Value, json};
use std::alloc::{AllocError, Global};
use wb_base::Text;
use wb_json::write_json;
use wb_metamodel::{ClassId, EnumId, FeatureId, Metamodel, ObjectId};
use wb_model::{Model, Scalar};

/// The text of a model: compact, with members ascending by their names, objects by their numbers, and no empty slot.
#[tactic(auto, unfolding(crate::specs::Written::text_of), using(crate::proofs::WrittenLemmas::model_no_float))]
pub fn write_model(alloc: Global, model: &Model) -> Result<Text, AllocError>
    ensures { IfOk result (λ text. text ≡ text_of model.now) }
{
    let value = model_value(alloc, model)?;
    write_json(alloc, &value)
}

/// The text of one live object: its class and its slots.
#[tactic(auto, unfolding(crate::specs::Written::row_text), using(crate::proofs::WrittenLemmas::row_no_float))]
pub fn write_object(alloc: Global, model: &Model, o: ObjectId) -> Result<Text, AllocError>
    requires { IsSome (kind model.now o) }
    ensures { IfOk result (λ text. text ≡ row_text model.now o) }
{
    let value = row_value(alloc, model, o)?;
    write_json(alloc, &value)
}

#[tactic(auto, unfolding(crate::specs::Written::row_data))]
fn row_value(alloc: Global, model: &Model, o: ObjectId) -> Result<Value, AllocError>
    ensures { IfOk result (λ value. view value ≡ row_data model.now o) }
{
    match model.kind(o) {
        Some(class) => row_of_class(alloc, model, o, class),
        None => Ok(Value::Null),
    }
}

fn row_of_class(
    alloc: Global,
    model: &Model,
    o: ObjectId,
    class: ClassId,
) -> Result<Value, AllocError>
    requires { class < length model.now.metamodel.classes }
    ensures { IfOk result (λ value. view value ≡ row_of_class model.now o (Some class)) }
{
    let name = class_value(alloc, model.metamodel(), class)?;
    let slots = slots_value(alloc, model, o, class)?;
    json!(in alloc; {"class": name, "slots": slots})
}

#[tactic(auto, unfolding(crate::specs::Written::model_data))]
fn model_value(alloc: Global, model: &Model) -> Result<Value, AllocError>
    ensures { IfOk result (λ value. view value ≡ model_data model.now) }
{
    let next = model.next();
    let objects = objects_value(alloc, model)?;
    let roots = roots_value(alloc, model.roots())?;
    json!(in alloc; {"next": next, "objects": objects, "roots": roots})
}

#[tactic(auto, unfolding(wb_json::specs::ToJson::list_json))]
fn roots_value(alloc: Global, roots: &[ObjectId]) -> Result<Value, AllocError>
    ensures { IfOk result (λ value. view value ≡ list_json number_data roots.now) }
{
    let mut values = Vec::new(alloc);
    for root in roots {
        values.push(Value::from(root.0))?;
    }
    Ok(Value::from(values))
}

#[tactic(auto, unfolding(wb_json::specs::ToJson::list_json))]
fn objects_value(alloc: Global, model: &Model) -> Result<Value, AllocError>
    ensures { IfOk result (λ value. view value ≡ list_json (object_data model.now) (keys model.now.kinds)) }
{
    let objects = model.objects(alloc)?;
    let mut values = Vec::new(alloc);
    for object in objects.as_slice() {
        values.push(object_value(alloc, model, *object)?)?;
    }
    Ok(Value::from(values))
}

#[tactic(auto, unfolding(crate::specs::Written::object_data))]
fn object_value(alloc: Global, model: &Model, o: ObjectId) -> Result<Value, AllocError>
    ensures { IfOk result (λ value. view value ≡ object_data model.now o) }
{
    match model.kind(o) {
        Some(class) => object_of_class(alloc, model, o, class),
        None => Ok(Value::Null),
    }
}

fn object_of_class(
    alloc: Global,
    model: &Model,
    o: ObjectId,
    class: ClassId,
) -> Result<Value, AllocError>
    requires { class < length model.now.metamodel.classes }
    ensures { IfOk result (λ value. view value ≡ object_of_class model.now o (Some class)) }
{
    let name = class_value(alloc, model.metamodel(), class)?;
    let id = o.0;
    let slots = slots_value(alloc, model, o, class)?;
    json!(in alloc; {"class": name, "id": id, "slots": slots})
}

pub fn class_value(
    alloc: Global,
    metamodel: &Metamodel,
    class: ClassId,
) -> Result<Value, AllocError>
    requires { class < length metamodel.now.classes }
    ensures { IfOk result (λ value. view value ≡ string (class_name metamodel.now class)) }
{
    Value::try_from_str(alloc, metamodel.class_name(class).as_str())
}

#[tactic(auto, unfolding(wb_json::specs::ToJson::members_json))]
fn slots_value(
    alloc: Global,
    model: &Model,
    o: ObjectId,
    class: ClassId,
) -> Result<Value, AllocError>
    requires { class < length model.now.metamodel.classes }
    ensures { IfOk result (λ value. view value ≡ slots_data model.now o class) }
{
    let mut slots = Map::new(alloc);
    for feature in features_of(model.metamodel(), class) {
        put_slot(alloc, &mut slots, model, o, *feature)?;
    }
    Ok(Value::from(slots))
}

// The features of a class; their numbers are those of the metamodel.
fn features_of(metamodel: &Metamodel, class: ClassId) -> &[FeatureId]
    requires { class < length metamodel.now.classes }
    ensures same { result.now ≡ features_of metamodel.now class }
    ensures known { All (λ f. f < length metamodel.now.features) result.now }
{
    metamodel.features_of(class)
}

fn put_slot(
    alloc: Global,
    slots: &mut Map<String, Value>,
    model: &Model,
    o: ObjectId,
    f: FeatureId,
) -> Result<(), AllocError>
    requires { f < length model.now.metamodel.features }
    ensures { OnOk result (members_view slots.new.entries
        ≡ put_all (slot_data model.now.metamodel) (named_slots model.now o (f ∷ [])) (members_view slots.old.entries)) }
{
    let values = model.get(o, f);
    if values.is_empty() {
        return Ok(());
    }
    let value = slot_value(alloc, model.metamodel(), f, values)?;
    serde_json::put(
        slots,
        alloc,
        model.metamodel().feature(f).name.as_str(),
        value,
    )
}

#[tactic(auto, unfolding(crate::specs::Written::slot_data))]
pub fn slot_value(
    alloc: Global,
    metamodel: &Metamodel,
    f: FeatureId,
    values: &[Scalar],
) -> Result<Value, AllocError>
    requires { f < length metamodel.now.features }
    ensures { IfOk result (λ value. view value ≡ slot_data metamodel.now (f, values.now)) }
{
    if metamodel.feature(f).many {
        list_value(alloc, metamodel, values)
    } else {
        single_value(alloc, metamodel, values)
    }
}

#[tactic(auto, unfolding(wb_json::specs::ToJson::list_json))]
fn list_value(alloc: Global, metamodel: &Metamodel, scalars: &[Scalar]) -> Result<Value, AllocError>
    ensures { IfOk result (λ value. view value ≡ list_json (scalar_data metamodel.now) scalars.now) }
{
    let mut values = Vec::new(alloc);
    for scalar in scalars {
        values.push(scalar_value(alloc, metamodel, scalar)?)?;
    }
    Ok(Value::from(values))
}

fn single_value(
    alloc: Global,
    metamodel: &Metamodel,
    scalars: &[Scalar],
) -> Result<Value, AllocError>
    ensures { IfOk result (λ value. view value ≡ single_data metamodel.now scalars.now) }
{
    match scalars.first() {
        Some(scalar) => scalar_value(alloc, metamodel, scalar),
        None => Ok(Value::Null),
    }
}

fn scalar_value(alloc: Global, metamodel: &Metamodel, scalar: &Scalar) -> Result<Value, AllocError>
    ensures { IfOk result (λ value. view value ≡ scalar_data metamodel.now scalar.now) }
{
    match scalar {
        Scalar::Int(number) => Ok(Value::from(*number)),
        Scalar::Bool(flag) => Ok(Value::from(*flag)),
        Scalar::Text(text) => Value::try_from_str(alloc, text.as_str()),
        Scalar::Literal(enumeration, literal) => {
            literal_value(alloc, metamodel, *enumeration, *literal)
        }
        Scalar::Object(o) => Ok(Value::from(o.0)),
    }
}

fn literal_value(
    alloc: Global,
    metamodel: &Metamodel,
    e: EnumId,
    literal: u32,
) -> Result<Value, AllocError>
    ensures { IfOk result (λ value. view value ≡ string (literal_text metamodel.now e literal)) }
{
    if e.0 < metamodel.enum_count() && literal < metamodel.literal_count(e) {
        return Value::try_from_str(alloc, metamodel.literal_name(e, literal).as_str());
    }
    Value::try_from_str(alloc, "")
}
