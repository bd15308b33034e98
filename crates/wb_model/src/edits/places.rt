ghost use Rattle.std.specs.Prelude.{◌≡◌, ◌<◌, ◌∷◌, ◌&&◌, not, length, IfOk};
ghost use Rattle.wb_metamodel.specs.WellFormed.{KindIsKnown};
ghost use Rattle.wb_store.specs.declared.scalars.Scalar.TheVariants.{Object};
ghost use Rattle.wb_store.specs.declared.scalars.Place.TheVariants.{In};
ghost use Rattle.wb_store.specs.Cells.{tree};
ghost use Rattle.wb_model.specs.EditChecks.{Tells, PlaceIsKnown, refusals_before_cycle, refusals_of_new};
ghost use Rattle.wb_store.specs.Relinking.{link, is_among, stands};
ghost use Rattle.wb_model.specs.Edits.{is_live, is_full, may_contain, refers_to, conforms_as, unless, first_refusal, refusal_of_move, refusals_of_place, refusal_of_create};
ghost use Rattle.wb_validity.specs.Valid.{IsValid};

use crate::edits::checks::{is_full, is_live, stands};
use crate::refusals::ModelRefusal;
use std::alloc::{AllocError, Global};
use wb_metamodel::{ClassId, FeatureId, Kind, Metamodel, ObjectId};
use wb_store::{Place, Scalar, Store, is_containment};
use wb_validity::{is_of_class, tree};

/// Why an object may not be put into a containment slot.
pub fn checked_move(
    alloc: Global,
    store: &Store,
    o: ObjectId,
    p: ObjectId,
    f: FeatureId,
) -> Result<(), ModelRefusal>
    requires valid { IsValid store.now }
    requires known { f < length store.now.metamodel.features }
    ensures { Tells result (refusal_of_move store.now o p f) }
{
    checked_room(store, o, p, f)?;
    if is_among_tree(alloc, store, o, p)? {
        return Err(ModelRefusal::ContainmentCycle);
    }
    Ok(())
}

// Why an object may not be put into a containment slot, whatever it contains.
fn checked_room(store: &Store, o: ObjectId, p: ObjectId, f: FeatureId) -> Result<(), ModelRefusal>
    requires { f < length store.now.metamodel.features }
    ensures { result ≡ unless (first_refusal (refusals_before_cycle store.now o p f)) tt }
{
    if !are_live(store, o, p) {
        return Err(ModelRefusal::UnknownObject);
    }
    if !conforms_as(store, p, f, o) {
        return Err(ModelRefusal::KindMismatch);
    }
    if has_no_room_for(store, p, f, o) {
        return Err(ModelRefusal::UpperBound);
    }
    Ok(())
}

fn are_live(store: &Store, o: ObjectId, p: ObjectId) -> bool
    ensures { result ≡ (is_live store.now o && is_live store.now p) }
{
    if is_live(store, o) {
        is_live(store, p)
    } else {
        false
    }
}

// May the containment slot hold the object?
fn conforms_as(store: &Store, p: ObjectId, f: FeatureId, o: ObjectId) -> bool
    requires { f < length store.now.metamodel.features }
    ensures { result ≡ conforms_as store.now p f o }
{
    match store.kind(o) {
        Some(class) => may_contain(store, p, f, class),
        None => false,
    }
}

// May the containment slot hold objects of the class?
fn may_contain(store: &Store, p: ObjectId, f: FeatureId, class: ClassId) -> bool
    requires feature { f < length store.now.metamodel.features }
    requires class { class < length store.now.metamodel.classes }
    ensures { result ≡ may_contain store.now p f class }
{
    if !is_of_class(store, p, f) {
        return false;
    }
    if !is_containment(store.metamodel(), f) {
        return false;
    }
    store.metamodel().well_formed();
    let kind = store.metamodel().feature(f).kind;
    refers_to(store.metamodel(), class, kind)
}

// Is it the kind of references to the class, or to one above it?
fn refers_to(metamodel: &Metamodel, class: ClassId, kind: Kind) -> bool
    requires class { class < length metamodel.now.classes }
    requires kind { KindIsKnown metamodel.now kind }
    ensures { result ≡ refers_to metamodel.now class kind }
{
    match kind {
        Kind::Int | Kind::Bool | Kind::Text | Kind::Enum(_) => false,
        Kind::Reference(c) => metamodel.conforms(class, c),
    }
}

// Does the object not stand there yet, and is the slot full?
fn has_no_room_for(store: &Store, p: ObjectId, f: FeatureId, o: ObjectId) -> bool
    requires { f < length store.now.metamodel.features }
    ensures { result ≡ (not (stands store.now (link p f (Object o))) && is_full store.now p f) }
{
    if stands(store, p, f, &Scalar::Object(o)) {
        false
    } else {
        is_full(store, p, f)
    }
}

// Is it the object, or one that it contains?
fn is_among_tree(alloc: Global, store: &Store, o: ObjectId, p: ObjectId) -> Result<bool, AllocError>
    requires { IsValid store.now }
    ensures { IfOk result (λ among. among ≡ is_among (o ∷ tree store.now o) p) }
{
    if o == p {
        return Ok(true);
    }
    let tree = tree(store, alloc, o)?;
    Ok(has_number(tree.as_slice(), p))
}

fn has_number(objects: &[ObjectId], o: ObjectId) -> bool
    ensures { result ≡ is_among objects.now o }
{
    objects.contains(&o)
}

/// Why an object may not be created.
pub fn checked_create(store: &Store, class: ClassId, place: &Place) -> Result<(), ModelRefusal>
    requires class { class < length store.now.metamodel.classes }
    requires place { PlaceIsKnown store.now.metamodel place.now }
    ensures { result ≡ unless (refusal_of_create store.now class place.now) tt }
{
    if let Place::In(p, f) = place {
        checked_place(store, class, *p, *f)?;
    }
    checked_new(store, class)
}

fn checked_place(
    store: &Store,
    class: ClassId,
    p: ObjectId,
    f: FeatureId,
) -> Result<(), ModelRefusal>
    requires feature { f < length store.now.metamodel.features }
    requires class { class < length store.now.metamodel.classes }
    ensures { result ≡ unless (first_refusal (refusals_of_place store.now class (In p f))) tt }
{
    if !is_live(store, p) {
        return Err(ModelRefusal::UnknownObject);
    }
    if !may_contain(store, p, f, class) {
        return Err(ModelRefusal::KindMismatch);
    }
    if is_full(store, p, f) {
        return Err(ModelRefusal::UpperBound);
    }
    Ok(())
}

// Why there may be no new object of the class, wherever it goes.
fn checked_new(store: &Store, class: ClassId) -> Result<(), ModelRefusal>
    requires { class < length store.now.metamodel.classes }
    ensures { result ≡ unless (first_refusal (refusals_of_new store.now class)) tt }
{
    if store.metamodel().is_abstract(class) {
        return Err(ModelRefusal::AbstractClass);
    }
    if store.len() >= 20_000 {
        return Err(ModelRefusal::TooManyObjects);
    }
    if store.next() == u32::MAX {
        return Err(ModelRefusal::IdsSpent);
    }
    Ok(())
}
