ghost use Rattle.std.specs.Prelude.{◌≡◌, ◌<◌, [], ◌∷◌, true, false, length, Some, None, IsSome, IfSome, OnOk, OnErr};
ghost use Rattle.std.specs.Option.{option_map_or};
ghost use Rattle.std.specs.List.{flat_map};
ghost use Rattle.wb_store.specs.declared.scalars.Scalar.TheVariants.{Object};
ghost use Rattle.wb_store.specs.Contents.{kind, slot};
ghost use Rattle.wb_store.specs.Relinking.{link, relink, other_end, stands};
ghost use Rattle.wb_model.specs.Edits.{unlink, link_up, emptied};
ghost use Rattle.wb_store.specs.LinkSteps.{with_link, without_link, each_left, with_ends, is_given, first_object, gives_place};
ghost use Rattle.wb_store.specs.Features.{opposite};
ghost use Rattle.wb_validity.specs.Valid.{IsValid, is_of_feature};

use crate::edits::checks::{is_many, opposite_of, stands};
use std::alloc::{AllocError, Global};
use wb_metamodel::{FeatureId, Metamodel, ObjectId};
use wb_store::{Scalar, Store};

/// Takes a value out, at both ends.
pub fn unlink(store: &mut Store, alloc: Global, o: ObjectId, f: FeatureId, value: &Scalar)
    requires { f < length store.old.metamodel.features }
    ensures { store.new ≡ unlink (link o f value.now) store.old }
{
    store.metamodel().well_formed();
    store.drop_value(alloc, o, f, value);
    drop_other_end(store, alloc, o, f, value);
}

// Takes a value out at its other end.
fn drop_other_end(store: &mut Store, alloc: Global, o: ObjectId, f: FeatureId, value: &Scalar)
    requires { f < length store.old.metamodel.features }
    ensures { store.new ≡ each_left (other_end store.old.metamodel (link o f value.now)) store.old }
{
    if let Some((p, g)) = other_end(store.metamodel(), o, f, value) {
        store.drop_value(alloc, p, g, &Scalar::Object(o));
    }
}

/// Takes all values out of a slot, at both ends.
pub fn empty_slot(store: &mut Store, alloc: Global, o: ObjectId, f: FeatureId)
    requires valid { IsValid store.old }
    requires known { f < length store.old.metamodel.features }
    ensures { store.new ≡ emptied o f store.old }
{
    store.metamodel().well_formed();
    let values = store.take_values(alloc, o, f);
    drop_other_ends(store, alloc, o, f, values.as_slice());
}

// Takes values out at their other ends.
fn drop_other_ends(store: &mut Store, alloc: Global, o: ObjectId, f: FeatureId, values: &[Scalar])
    requires { f < length store.old.metamodel.features }
    ensures { store.new ≡ each_left (flat_map (λ v. other_end store.old.metamodel (link o f v)) values.now) store.old }
{
    for value in values {
        drop_other_end(store, alloc, o, f, value);
    }
}

/// Puts an object last in a slot, and its other end.
pub fn put_ends(
    store: &mut Store,
    alloc: Global,
    o: ObjectId,
    f: FeatureId,
    p: ObjectId,
) -> Result<(), AllocError>
    requires from { IsSome (kind store.old o) }
    requires to { IsSome (kind store.old p) }
    requires known { f < length store.old.metamodel.features }
    requires fresh { stands store.old (link o f (Object p)) ≡ false }
    ensures ok { OnOk result (store.new ≡ with_ends (link o f (Object p)) store.old) }
    ensures err { OnErr result (store.new ≡ store.old) }
{
    let other = other_end(store.metamodel(), o, f, &Scalar::Object(p));
    store.put_last(alloc, o, f, Scalar::Object(p))?;
    match other {
        Some(end) => put_back(store, alloc, o, f, end.0, end.1),
        None => Ok(()),
    }
}

// Puts the other end of an object that stands last in a slot; without memory the object leaves the slot.
fn put_back(
    store: &mut Store,
    alloc: Global,
    o: ObjectId,
    f: FeatureId,
    p: ObjectId,
    g: FeatureId,
) -> Result<(), AllocError>
    requires to { IsSome (kind store.old p) }
    requires known { f < length store.old.metamodel.features }
    requires known_back { g < length store.old.metamodel.features }
    ensures ok { OnOk result (store.new ≡ with_link (link p g (Object o)) store.old) }
    ensures err { OnErr result (store.new ≡ without_link (link o f (Object p)) store.old) }
{
    let put = store.put_last(alloc, p, g, Scalar::Object(o));
    if put.is_err() {
        store.drop_value(alloc, o, f, &Scalar::Object(p));
    }
    put
}

// The object that gives way where another comes to a slot of one value.
fn gives_place(store: &Store, o: ObjectId, f: FeatureId) -> Option<ObjectId>
    requires { f < length store.now.metamodel.features }
    ensures { result ≡ gives_place store.now o f }
{
    if is_many(store.metamodel(), f) {
        None
    } else {
        first_object(store.get(o, f))
    }
}

// Takes an object that is given out of a slot, at both ends.
fn unlink_given(
    store: &mut Store,
    alloc: Global,
    o: ObjectId,
    f: FeatureId,
    given: Option<ObjectId>,
)
    requires { f < length store.old.metamodel.features }
    ensures { store.new ≡ relink (is_given store.old.metamodel o f given) [] store.old }
{
    if let Some(p) = given {
        unlink(store, alloc, o, f, &Scalar::Object(p));
    }
}

/// A value comes to a slot, at both ends, unless it stands there.
pub fn link_up(
    store: &mut Store,
    alloc: Global,
    o: ObjectId,
    f: FeatureId,
    value: Scalar,
) -> Result<(), AllocError>
    requires valid { IsValid store.old }
    requires live { IsSome (kind store.old o) }
    requires known { f < length store.old.metamodel.features }
    requires of_feature { is_of_feature store.old f value ≡ true }
    ensures ok { OnOk result (store.new ≡ link_up (link o f value) store.old) }
    ensures err { OnErr result (store.new ≡ store.old) }
{
    if stands(store, o, f, &value) {
        return Ok(());
    }
    link_fresh(store, alloc, o, f, value)
}

fn link_fresh(
    store: &mut Store,
    alloc: Global,
    o: ObjectId,
    f: FeatureId,
    value: Scalar,
) -> Result<(), AllocError>
    requires valid { IsValid store.old }
    requires live { IsSome (kind store.old o) }
    requires known { f < length store.old.metamodel.features }
    requires of_feature { is_of_feature store.old f value ≡ true }
    requires fresh { stands store.old (link o f value) ≡ false }
    ensures ok { OnOk result (store.new ≡ link_up (link o f value) store.old) }
    ensures err { OnErr result (store.new ≡ store.old) }
{
    store.metamodel().well_formed();
    match other_end(store.metamodel(), o, f, &value) {
        Some(end) => link_both(store, alloc, o, f, end.0, end.1),
        None => link_alone(store, alloc, o, f, value),
    }
}

// A value of a feature without an opposite comes.
fn link_alone(
    store: &mut Store,
    alloc: Global,
    o: ObjectId,
    f: FeatureId,
    value: Scalar,
) -> Result<(), AllocError>
    requires live { IsSome (kind store.old o) }
    requires known { f < length store.old.metamodel.features }
    requires alone { opposite store.old.metamodel f ≡ None }
    requires fresh { stands store.old (link o f value) ≡ false }
    ensures ok { OnOk result (store.new ≡ link_up (link o f value) store.old) }
    ensures err { OnErr result (store.new ≡ store.old) }
{
    store.metamodel().well_formed();
    if is_many(store.metamodel(), f) {
        store.put_last(alloc, o, f, value)
    } else {
        store.put_alone(alloc, o, f, value)
    }
}

// An object comes to a feature with an opposite, and then what gives way leaves.
fn link_both(
    store: &mut Store,
    alloc: Global,
    o: ObjectId,
    f: FeatureId,
    p: ObjectId,
    g: FeatureId,
) -> Result<(), AllocError>
    requires valid { IsValid store.old }
    requires from { IsSome (kind store.old o) }
    requires to { IsSome (kind store.old p) }
    requires known { f < length store.old.metamodel.features }
    requires known_back { g < length store.old.metamodel.features }
    requires opposed { opposite store.old.metamodel f ≡ Some g }
    requires fresh { stands store.old (link o f (Object p)) ≡ false }
    ensures ok { OnOk result (store.new ≡ link_up (link o f (Object p)) store.old) }
    ensures err { OnErr result (store.new ≡ store.old) }
{
    store.metamodel().well_formed();
    let first = gives_place(store, o, f);
    let second = gives_place(store, p, g);
    put_ends(store, alloc, o, f, p)?;
    unlink_given(store, alloc, o, f, first);
    unlink_given(store, alloc, p, g, second);
    Ok(())
}

/// The object and the feature whose slot holds the other end of a value.
pub fn other_end(
    metamodel: &Metamodel,
    o: ObjectId,
    f: FeatureId,
    value: &Scalar,
) -> Option<(ObjectId, FeatureId)>
    requires { f < length metamodel.now.features }
    ensures value { other_end metamodel.now (link o f value.now) ≡ option_map_or (λ e. link e.0 e.1 (Object o) ∷ []) result [] }
    ensures known { IfSome result (λ e. e.1 < length metamodel.now.features) }
{
    match opposite_of(metamodel, f) {
        Some(g) => match value {
            Scalar::Object(p) => Some((*p, g)),
            _ => None,
        },
        None => None,
    }
}

fn first_object(values: &[Scalar]) -> Option<ObjectId>
    ensures { result ≡ first_object values.now }
{
    match values.first() {
        Some(Scalar::Object(p)) => Some(*p),
        _ => None,
    }
}
