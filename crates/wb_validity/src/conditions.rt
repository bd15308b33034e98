ghost use Rattle.std.specs.Prelude.{◌≡◌, ◌<◌, ◌&&◌, ◌||◌, length, not, nat_eq, true, IfOk};
ghost use Rattle.std.specs.List.{list_all, list_any, flat_map};
ghost use Rattle.wb_metamodel.specs.WellFormed.{KindIsKnown};
ghost use Rattle.wb_validity.specs.Broken.{least, breaks, is_crowded, is_misnumbered};
ghost use Rattle.wb_store.specs.Contents.{members};
ghost use Rattle.wb_validity.specs.Conditions.{meets};
ghost use Rattle.wb_validity.specs.invariants.LinkSets.{KnowsLinks};
ghost use Rattle.wb_store.specs.Records.{is_known_slot, slot_entries, slot_entry};
ghost use Rattle.wb_store.specs.Features.{opposite};
ghost use Rattle.wb_validity.specs.Valid.{is_abstract, is_of_class, room, is_of_kind, is_integer, is_boolean, is_text, is_literal, is_instance, conforms_to, is_of_feature, differ, holds_back, is_held_back};

use crate::link_set::LinkSet;
use indexmap::IndexSet;
use std::alloc::{AllocError, Global};
use wb_metamodel::{ClassId, EnumId, FeatureId, Kind, Metamodel, ObjectId};
use wb_store::{ObjectSet, Record, Scalar, Slot, Store};

/// A condition that speaks of one slot at a time.
#[derive(Clone, Copy)]
pub enum Condition {
    /// The slot is of a feature of its object's class.
    OfClass,
    /// The slot has no more values than its feature may have.
    HasRoom,
    /// The values are of the feature's kind.
    OfKinds,
    /// No value stands twice.
    Differ,
    /// The objects in the slot of a feature with an opposite hold the slot's object back.
    HeldBack,
}

/// The least object that has a slot which does not meet the condition.
pub fn breaking_object(
    alloc: Global,
    store: &Store,
    links: &LinkSet,
    condition: Condition,
) -> Result<Option<ObjectId>, AllocError>
    requires { KnowsLinks store.now links.now }
    ensures { IfOk result (λ object. object ≡ least store.now (λ o c. breaks store.now condition o)) }
{
    for record in store.records() {
        let slots = record.slots.as_slice();
        let all_meet = slots_meet(alloc, store, links, condition, record.id, slots)?;
        if !all_meet {
            return Ok(Some(record.id));
        }
    }
    Ok(None)
}

/// The least object that is one of these, or has a slot with more values than there is room for.
pub fn crowded_object(
    alloc: Global,
    store: &Store,
    links: &LinkSet,
    wrong: &ObjectSet,
) -> Result<Option<ObjectId>, AllocError>
    requires { KnowsLinks store.now links.now }
    ensures { IfOk result (λ object. object ≡ least store.now (λ o c. is_crowded store.now wrong.now o)) }
{
    for record in store.records() {
        let crowded = is_crowded(alloc, store, links, wrong, record)?;
        if crowded {
            return Ok(Some(record.id));
        }
    }
    Ok(None)
}

fn is_crowded(
    alloc: Global,
    store: &Store,
    links: &LinkSet,
    wrong: &ObjectSet,
    object: &Record,
) -> Result<bool, AllocError>
    requires knows { KnowsLinks store.now links.now }
    requires known { list_all (is_known_slot store.now.metamodel) object.now.slots ≡ true }
    ensures { IfOk result (λ is. is ≡ (list_any (λ p. nat_eq p object.now.id) wrong.now || not (list_all (λ e. meets store.now Condition.HasRoom e.0.0 e.0.1 (members e.1)) (slot_entries object.now)))) }
{
    if wrong.contains(object.id) {
        return Ok(true);
    }
    let slots = object.slots.as_slice();
    let have_room = slots_meet(alloc, store, links, Condition::HasRoom, object.id, slots)?;
    Ok(!have_room)
}

// Do all slots of an object that are not empty meet the condition?
fn slots_meet(
    alloc: Global,
    store: &Store,
    links: &LinkSet,
    condition: Condition,
    o: ObjectId,
    slots: &[Slot],
) -> Result<bool, AllocError>
    requires knows { KnowsLinks store.now links.now }
    requires known { list_all (is_known_slot store.now.metamodel) slots.now ≡ true }
    ensures { IfOk result (λ meet. meet ≡ list_all (λ e. meets store.now condition e.0.0 e.0.1 (members e.1)) (flat_map (slot_entry o) slots.now)) }
{
    for slot in slots {
        let values = slot.values.as_slice();
        if !values.is_empty() && !meets(alloc, store, links, condition, o, slot.feature, values)? {
            return Ok(false);
        }
    }
    Ok(true)
}

fn meets(
    alloc: Global,
    store: &Store,
    links: &LinkSet,
    condition: Condition,
    o: ObjectId,
    f: FeatureId,
    values: &[Scalar],
) -> Result<bool, AllocError>
    requires knows { KnowsLinks store.now links.now }
    requires known { f < length store.now.metamodel.features }
    ensures { IfOk result (λ meets_it. meets_it ≡ meets store.now condition o f values.now) }
{
    match condition {
        Condition::OfClass => Ok(is_of_class(store, o, f)),
        Condition::HasRoom => Ok(values.len() <= room(store.metamodel(), f)),
        Condition::OfKinds => Ok(are_of_kinds(store, f, values)),
        Condition::Differ => differ(alloc, values),
        Condition::HeldBack => Ok(are_held_back(store, links, o, f, values)),
    }
}

pub fn is_of_class(store: &Store, o: ObjectId, f: FeatureId) -> bool
    ensures { result ≡ is_of_class store.now o f }
{
    match store.kind(o) {
        Some(class) => store.metamodel().features_of(class).contains(&f),
        None => false,
    }
}

// How many values a slot of the feature may have.
pub fn room(metamodel: &Metamodel, f: FeatureId) -> usize
    requires { f < length metamodel.now.features }
    ensures { result ≡ room metamodel.now f }
{
    if metamodel.feature(f).many { 20_000 } else { 1 }
}

fn are_of_kinds(store: &Store, f: FeatureId, values: &[Scalar]) -> bool
    requires { f < length store.now.metamodel.features }
    ensures { result ≡ list_all (is_of_feature store.now f) values.now }
{
    for value in values {
        if !is_of_feature(store, f, value) {
            return false;
        }
    }
    true
}

pub fn is_of_feature(store: &Store, f: FeatureId, value: &Scalar) -> bool
    requires { f < length store.now.metamodel.features }
    ensures { result ≡ is_of_feature store.now f value.now }
{
    store.metamodel().well_formed();
    let kind = store.metamodel().feature(f).kind;
    is_of_kind(store, kind, value)
}

fn is_of_kind(store: &Store, kind: Kind, value: &Scalar) -> bool
    requires { KindIsKnown store.now.metamodel kind }
    ensures { result ≡ is_of_kind store.now kind value.now }
{
    match kind {
        Kind::Int => is_integer(value),
        Kind::Bool => is_boolean(value),
        Kind::Text => is_text(value),
        Kind::Enum(e) => is_literal(store.metamodel(), e, value),
        Kind::Reference(c) => is_instance(store, c, value),
    }
}

fn is_integer(value: &Scalar) -> bool
    ensures { result ≡ is_integer value.now }
{
    match value {
        Scalar::Int(number) => {
            let _width = *number;
            true
        }
        _ => false,
    }
}

fn is_boolean(value: &Scalar) -> bool
    ensures { result ≡ is_boolean value.now }
{
    matches!(value, Scalar::Bool(_))
}

fn is_text(value: &Scalar) -> bool
    ensures { result ≡ is_text value.now }
{
    match value {
        Scalar::Text(text) => text.as_slice().len() <= 65_536,
        _ => false,
    }
}

fn is_literal(metamodel: &Metamodel, e: EnumId, value: &Scalar) -> bool
    requires { e < length metamodel.now.enumerations }
    ensures { result ≡ is_literal metamodel.now e value.now }
{
    let count = metamodel.literal_count(e);
    match value {
        Scalar::Literal(d, literal) => e == *d && *literal < count,
        _ => false,
    }
}

fn is_instance(store: &Store, c: ClassId, value: &Scalar) -> bool
    requires { c < length store.now.metamodel.classes }
    ensures { result ≡ is_instance store.now c value.now }
{
    match value {
        Scalar::Object(o) => conforms_to(store, c, *o),
        _ => false,
    }
}

// Is the object live, and of the class or one below it?
fn conforms_to(store: &Store, c: ClassId, o: ObjectId) -> bool
    requires { c < length store.now.metamodel.classes }
    ensures { result ≡ conforms_to store.now c o }
{
    match store.kind(o) {
        Some(class) => store.metamodel().conforms(class, c),
        None => false,
    }
}

fn differ(alloc: Global, values: &[Scalar]) -> Result<bool, AllocError>
    ensures { IfOk result (λ they. they ≡ differ values.now) }
{
    let mut seen = IndexSet::new(alloc);
    for value in values {
        let is_new = seen.insert(value)?;
        if !is_new {
            return Ok(false);
        }
    }
    Ok(true)
}

fn are_held_back(
    store: &Store,
    links: &LinkSet,
    o: ObjectId,
    f: FeatureId,
    values: &[Scalar],
) -> bool
    requires knows { KnowsLinks store.now links.now }
    requires known { f < length store.now.metamodel.features }
    ensures { result ≡ list_all (is_held_back store.now o f) values.now }
{
    for value in values {
        if !is_held_back(store, links, o, f, value) {
            return false;
        }
    }
    true
}

fn is_held_back(store: &Store, links: &LinkSet, o: ObjectId, f: FeatureId, value: &Scalar) -> bool
    requires knows { KnowsLinks store.now links.now }
    requires known { f < length store.now.metamodel.features }
    ensures { result ≡ is_held_back store.now o f value.now }
{
    match value {
        Scalar::Object(p) => holds_back(store, links, o, f, *p),
        _ => true,
    }
}

fn holds_back(store: &Store, links: &LinkSet, o: ObjectId, f: FeatureId, p: ObjectId) -> bool
    requires knows { KnowsLinks store.now links.now }
    requires known { f < length store.now.metamodel.features }
    ensures { result ≡ holds_back store.now o f p }
{
    store.metamodel().well_formed();
    match store.metamodel().feature(f).opposite {
        Some(g) => links.contains(p, g, o),
        None => true,
    }
}

/// The least object whose number is 0, or not below `next`.
pub fn misnumbered_object(store: &Store) -> Option<ObjectId>
    ensures { result ≡ least store.now (λ o c. is_misnumbered store.now o) }
{
    for record in store.records() {
        let number = record.id.0;
        if number == 0 || number >= store.next() {
            return Some(record.id);
        }
    }
    None
}

/// The least object whose class is abstract.
pub fn abstract_object(store: &Store) -> Option<ObjectId>
    ensures { result ≡ least store.now (λ o c. is_abstract store.now.metamodel c) }
{
    for record in store.records() {
        if store.metamodel().is_abstract(record.class) {
            return Some(record.id);
        }
    }
    None
}
