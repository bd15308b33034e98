ghost use Rattle.std.specs.Prelude.{◌≡◌, ◌≤◌, filter, IfOk, length, map, nat_eq, not};
ghost use Rattle.std.specs.List.{after_first, before_first, position_or_len};
ghost use Rattle.wb_store.specs.declared.scalars.Cell.TheVariants.{Roots};
ghost use Rattle.wb_store.specs.declared.scalars.Scalar.TheVariants.{Object};
ghost use Rattle.wb_aql_services.specs.Navigation.{beside, content_of, e_inverse, following, preceding, siblings};
ghost use Rattle.wb_aql_values.specs.Readings.{contents, held};
ghost use Rattle.wb_aql_values.specs.Runs.{Gives, run};

use crate::downwards::content;
use crate::sequences::sequence;
use std::alloc::{AllocError, Global};
use wb_aql_values::{Gathered, Halt, Reads, Sort, Value, look_at_class};
use wb_base::List;
use wb_metamodel::{FeatureId, ObjectId};
use wb_model::{Cell, Model, Scalar};

/// `siblings`: the objects beside the object, without itself.
pub fn siblings(alloc: Global, o: ObjectId, model: &Model, reads: &mut Reads) -> Result<Value, Halt>
    ensures { Gives (run (siblings model.now.metamodel o) (contents model.now) reads.old) result reads.new }
{
    let os = beside(alloc, o, model, reads)?;
    let others = without(alloc, os.as_slice(), o)?;
    sequence(alloc, &None, others.as_slice(), model, reads)
}

/// `precedingSiblings`: those before the object.
pub fn preceding(
    alloc: Global,
    o: ObjectId,
    model: &Model,
    reads: &mut Reads,
) -> Result<Value, Halt>
    ensures { Gives (run (preceding model.now.metamodel o) (contents model.now) reads.old) result reads.new }
{
    let os = beside(alloc, o, model, reads)?;
    sequence(alloc, &None, up_to(os.as_slice(), o), model, reads)
}

/// `followingSiblings`: those after the object.
pub fn following(
    alloc: Global,
    o: ObjectId,
    model: &Model,
    reads: &mut Reads,
) -> Result<Value, Halt>
    ensures { Gives (run (following model.now.metamodel o) (contents model.now) reads.old) result reads.new }
{
    let os = beside(alloc, o, model, reads)?;
    sequence(alloc, &None, behind(os.as_slice(), o), model, reads)
}

// What stands before an object; all where it is absent.
fn up_to(os: &[ObjectId], o: ObjectId) -> &[ObjectId]
    ensures { result.now ≡ before_first (λ p. nat_eq p o) os.now }
{
    &os[..place_of(os, o)]
}

// What stands behind an object; nothing where it is absent.
fn behind(os: &[ObjectId], o: ObjectId) -> &[ObjectId]
    ensures { result.now ≡ after_first (λ p. nat_eq p o) os.now }
{
    let place = place_of(os, o);
    if place < os.len() {
        &os[place + 1..]
    } else {
        &[]
    }
}

// The objects beside an object, itself among them: the content of its container, or else the roots.
fn beside(
    alloc: Global,
    o: ObjectId,
    model: &Model,
    reads: &mut Reads,
) -> Result<List<ObjectId>, Halt>
    ensures { Gives (run (beside model.now.metamodel o) (contents model.now) reads.old) result reads.new }
{
    reads.note(Cell::Holder(o))?;
    match model.holder(o) {
        Some(place) => content_of(alloc, place.0, model, reads),
        None => roots(alloc, model, reads),
    }
}

// What a container contains directly; its class is read.
fn content_of(
    alloc: Global,
    o: ObjectId,
    model: &Model,
    reads: &mut Reads,
) -> Result<List<ObjectId>, Halt>
    ensures { Gives (run (content_of model.now.metamodel o) (contents model.now) reads.old) result reads.new }
{
    let class = look_at_class(model, o, reads)?;
    content(alloc, o, class, model, reads)
}

fn roots(alloc: Global, model: &Model, reads: &mut Reads) -> Result<List<ObjectId>, Halt>
    ensures { Gives (run (held Roots) (contents model.now) reads.old) result reads.new }
{
    reads.note(Cell::Roots)?;
    Ok(copied(alloc, model.roots())?)
}

fn copied(alloc: Global, os: &[ObjectId]) -> Result<List<ObjectId>, AllocError>
    ensures { IfOk result (λ copies. copies ≡ os.now) }
{
    let mut copies = List::new(alloc);
    for o in os {
        copies.push(*o)?;
    }
    Ok(copies)
}

fn without(alloc: Global, os: &[ObjectId], o: ObjectId) -> Result<List<ObjectId>, AllocError>
    ensures { IfOk result (λ others. others ≡ filter (λ p. not (nat_eq p o)) os.now) }
{
    let mut others = List::new(alloc);
    for p in os {
        if *p != o {
            others.push(*p)?;
        }
    }
    Ok(others)
}

// The first place of an object, or the length where it is absent.
fn place_of(os: &[ObjectId], o: ObjectId) -> usize
    ensures value { result ≡ position_or_len (λ p. nat_eq p o) os.now }
    ensures within { result ≤ length os.now }
{
    for (i, p) in os.iter().enumerate() {
        if *p == o {
            return i;
        }
    }
    os.len()
}

/// `eInverse`: the objects whose plain references lead to the object, ascending.
pub fn e_inverse(
    alloc: Global,
    o: ObjectId,
    model: &Model,
    reads: &mut Reads,
) -> Result<Value, Halt>
    ensures { Gives (run (e_inverse o) (contents model.now) reads.old) result reads.new }
{
    reads.note(Cell::Inverse(o))?;
    let pairs = model.inverse(alloc, o)?;
    let mut sources = Gathered::new(alloc, Sort::OrderedSet);
    sources.put(Value::Sequence(sources_of(alloc, pairs.as_slice())?))?;
    Ok(sources.into_value(alloc)?)
}

fn sources_of(alloc: Global, pairs: &[(ObjectId, FeatureId)]) -> Result<List<Scalar>, AllocError>
    ensures { IfOk result (λ xs. xs ≡ map (λ pair. Object pair.0) pairs.now) }
{
    let mut sources = List::new(alloc);
    for (source, _) in pairs {
        sources.push(Scalar::Object(*source))?;
    }
    Ok(sources)
}
