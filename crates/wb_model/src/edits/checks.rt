ghost use Rattle.std.specs.Prelude.{◌≡◌, ◌<◌, ◌&&◌, IfSome, length, not, if◌then◌else◌};
ghost use Rattle.std.specs.List.{list_any};
ghost use Rattle.wb_store.specs.Relinking.{link, other_end, both_ends, stands};
ghost use Rattle.wb_model.specs.Edits.{is_live, is_known_value, is_plain_feature, is_plain_link, is_full, finds_no_room, unless, refusal_of_link, refusal_of_take, refusal_of_unset};
ghost use Rattle.wb_store.specs.Features.{is_many, opposite};

use crate::refusals::ModelRefusal;
use wb_metamodel::{FeatureId, Metamodel, ObjectId};
use wb_store::{Scalar, Store, is_plain};
use wb_validity::{is_of_class, is_of_feature, room};

/// Why a value may not be set, or added where `many` is true.
pub fn checked_link(
    store: &Store,
    many: bool,
    o: ObjectId,
    f: FeatureId,
    value: &Scalar,
) -> Result<(), ModelRefusal>
    requires { f < length store.now.metamodel.features }
    ensures { result ≡ unless (refusal_of_link many store.now (link o f value.now)) tt }
{
    if !are_known(store, o, value) {
        return Err(ModelRefusal::UnknownObject);
    }
    if !is_link_of_sort(store, many, o, f, value) {
        return Err(ModelRefusal::KindMismatch);
    }
    if finds_no_room(store, o, f, value) {
        return Err(ModelRefusal::UpperBound);
    }
    Ok(())
}

/// Why a value may not be taken.
pub fn checked_take(
    store: &Store,
    o: ObjectId,
    f: FeatureId,
    value: &Scalar,
) -> Result<(), ModelRefusal>
    requires { f < length store.now.metamodel.features }
    ensures { result ≡ unless (refusal_of_take store.now (link o f value.now)) tt }
{
    if !are_known(store, o, value) {
        return Err(ModelRefusal::UnknownObject);
    }
    if !is_link_of_many(store, o, f, value) {
        return Err(ModelRefusal::KindMismatch);
    }
    Ok(())
}

/// Why a feature may not be unset.
pub fn checked_unset(store: &Store, o: ObjectId, f: FeatureId) -> Result<(), ModelRefusal>
    requires { f < length store.now.metamodel.features }
    ensures { result ≡ unless (refusal_of_unset store.now o f) tt }
{
    if !is_live(store, o) {
        return Err(ModelRefusal::UnknownObject);
    }
    if !is_plain_feature(store, o, f) {
        return Err(ModelRefusal::KindMismatch);
    }
    Ok(())
}

/// Is the object live?
pub fn is_live(store: &Store, o: ObjectId) -> bool
    ensures { result ≡ is_live store.now o }
{
    store.kind(o).is_some()
}

// Is the object live, and a value that is an object?
fn are_known(store: &Store, o: ObjectId, value: &Scalar) -> bool
    ensures { result ≡ (is_live store.now o && is_known_value store.now value.now) }
{
    if is_live(store, o) {
        is_known_value(store, value)
    } else {
        false
    }
}

fn is_known_value(store: &Store, value: &Scalar) -> bool
    ensures { result ≡ is_known_value store.now value.now }
{
    match value {
        Scalar::Object(p) => is_live(store, *p),
        _ => true,
    }
}

/// Does the value stand in the slot already?
pub fn stands(store: &Store, o: ObjectId, f: FeatureId, value: &Scalar) -> bool
    ensures { result ≡ stands store.now (link o f value.now) }
{
    store.get(o, f).contains(value)
}

fn is_plain_feature(store: &Store, o: ObjectId, f: FeatureId) -> bool
    requires { f < length store.now.metamodel.features }
    ensures { result ≡ is_plain_feature store.now o f }
{
    if is_of_class(store, o, f) {
        is_plain(store.metamodel(), f)
    } else {
        false
    }
}

fn is_plain_link(store: &Store, o: ObjectId, f: FeatureId, value: &Scalar) -> bool
    requires { f < length store.now.metamodel.features }
    ensures { result ≡ is_plain_link store.now (link o f value.now) }
{
    if is_plain_feature(store, o, f) {
        is_of_feature(store, f, value)
    } else {
        false
    }
}

fn is_link_of_sort(store: &Store, many: bool, o: ObjectId, f: FeatureId, value: &Scalar) -> bool
    requires { f < length store.now.metamodel.features }
    ensures { result ≡ (is_plain_link store.now (link o f value.now) && (if is_many store.now.metamodel f then many else not many)) }
{
    if is_plain_link(store, o, f, value) {
        is_of_sort(store.metamodel(), many, f)
    } else {
        false
    }
}

fn is_link_of_many(store: &Store, o: ObjectId, f: FeatureId, value: &Scalar) -> bool
    requires { f < length store.now.metamodel.features }
    ensures { result ≡ (is_plain_link store.now (link o f value.now) && is_many store.now.metamodel f) }
{
    if is_plain_link(store, o, f, value) {
        is_many(store.metamodel(), f)
    } else {
        false
    }
}

// Has the feature many values exactly where `many` is true?
fn is_of_sort(metamodel: &Metamodel, many: bool, f: FeatureId) -> bool
    requires { f < length metamodel.now.features }
    ensures { result ≡ (if is_many metamodel.now f then many else not many) }
{
    if is_many(metamodel, f) { many } else { !many }
}

pub fn is_many(metamodel: &Metamodel, f: FeatureId) -> bool
    requires { f < length metamodel.now.features }
    ensures { result ≡ is_many metamodel.now f }
{
    metamodel.feature(f).many
}

/// The opposite of a feature.
pub fn opposite_of(metamodel: &Metamodel, f: FeatureId) -> Option<FeatureId>
    requires { f < length metamodel.now.features }
    ensures value { result ≡ opposite metamodel.now f }
    ensures known { IfSome result (λ g. g < length metamodel.now.features) }
{
    metamodel.well_formed();
    metamodel.feature(f).opposite
}

/// Has a slot as many values as it may have?
pub fn is_full(store: &Store, o: ObjectId, f: FeatureId) -> bool
    requires { f < length store.now.metamodel.features }
    ensures { result ≡ is_full store.now o f }
{
    room(store.metamodel(), f) <= store.get(o, f).len()
}

// Has a slot of many values as many as it may have?
fn is_full_of_many(store: &Store, o: ObjectId, f: FeatureId) -> bool
    requires { f < length store.now.metamodel.features }
    ensures { result ≡ (is_many store.now.metamodel f && is_full store.now o f) }
{
    if is_many(store.metamodel(), f) {
        is_full(store, o, f)
    } else {
        false
    }
}

// Is the slot at the other end of a value full, where it has many values?
fn other_end_is_full(store: &Store, o: ObjectId, f: FeatureId, value: &Scalar) -> bool
    requires { f < length store.now.metamodel.features }
    ensures { result ≡ list_any (λ e. is_many store.now.metamodel e.feature && is_full store.now e.object e.feature) (other_end store.now.metamodel (link o f value.now)) }
{
    match opposite_of(store.metamodel(), f) {
        Some(g) => match value {
            Scalar::Object(p) => is_full_of_many(store, *p, g),
            _ => false,
        },
        None => false,
    }
}

fn either_end_is_full(store: &Store, o: ObjectId, f: FeatureId, value: &Scalar) -> bool
    requires { f < length store.now.metamodel.features }
    ensures { result ≡ list_any (λ e. is_many store.now.metamodel e.feature && is_full store.now e.object e.feature) (both_ends store.now.metamodel (link o f value.now)) }
{
    if is_full_of_many(store, o, f) {
        true
    } else {
        other_end_is_full(store, o, f, value)
    }
}

fn finds_no_room(store: &Store, o: ObjectId, f: FeatureId, value: &Scalar) -> bool
    requires { f < length store.now.metamodel.features }
    ensures { result ≡ finds_no_room store.now (link o f value.now) }
{
    if stands(store, o, f, value) {
        false
    } else {
        either_end_is_full(store, o, f, value)
    }
}
