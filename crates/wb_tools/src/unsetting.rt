ghost use Rattle.std.specs.Prelude.{◌≡◌, ◌<◌, length, Ok, Err, IfOk};
ghost use Rattle.wb_store.specs.Cells.{objects_in};
ghost use Rattle.wb_store.specs.Contents.{slot};
ghost use Rattle.wb_model.specs.declared.edits.edit.Edit.TheVariants as change;
ghost use Rattle.wb_model.specs.declared.refusals.ModelRefusal.TheVariants.{KindMismatch};
ghost use Rattle.wb_tools.specs.Doings.{each};
ghost use Rattle.wb_tools.specs.FeatureEdits.{edit_by, take_all, take_by, unset_all, unset_by};
ghost use Rattle.wb_tools.specs.Runs.{Outcomes, Went, run, work};
ghost use Rattle.wb_tools.specs.declared.refusals.ToolRefusal.TheVariants as refusal;

use crate::editing::edit_by;
use crate::feature_edits::feature_at;
use crate::feature_sorts::{FeatureSort, Way, sort_of};
use crate::refusals::ToolRefusal;
use crate::setting::with_values;
use crate::tally::Tally;
use std::alloc::{AllocError, Global};
use wb_json::Name;
use wb_metamodel::{FeatureId, ObjectId};
use wb_model::{Edit, Model, ModelRefusal};
use wb_store::Scalar;

/// The feature of an object loses all values.
pub fn unset_all(
    alloc: Global,
    place: u32,
    o: ObjectId,
    name: &Name,
    model: &mut Model,
    tally: &mut Tally,
) -> Result<(), ToolRefusal>
    ensures done { (out : Outcomes) → Went (run out (unset_all place o name.now) (work model.old tally.old)) result model.new tally.new }
    ensures counted { tally.new.expressions ≡ tally.old.expressions }
    ensures same { model.new.metamodel ≡ model.old.metamodel }
{
    let f = feature_at(place, model, o, name)?;
    let sort = sort_of(model.metamodel(), f);
    unset_by(alloc, place, o, f, sort, model, tally)
}

fn unset_by(
    alloc: Global,
    place: u32,
    o: ObjectId,
    f: FeatureId,
    sort: FeatureSort,
    model: &mut Model,
    tally: &mut Tally,
) -> Result<(), ToolRefusal>
    requires { f < length model.old.metamodel.features }
    ensures done { (out : Outcomes) → Went (run out (unset_by place o f (slot model.old o f) sort) (work model.old tally.old)) result model.new tally.new }
    ensures counted { tally.new.expressions ≡ tally.old.expressions }
    ensures same { model.new.metamodel ≡ model.old.metamodel }
{
    match sort {
        FeatureSort::Single => unset_plain(alloc, place, o, f, model, tally),
        FeatureSort::Many => unset_plain(alloc, place, o, f, model, tally),
        FeatureSort::Containment => remove_content(alloc, place, o, f, model, tally),
        FeatureSort::Container => Err(ToolRefusal::Model(place, ModelRefusal::KindMismatch)),
    }
}

fn unset_plain(
    alloc: Global,
    place: u32,
    o: ObjectId,
    f: FeatureId,
    model: &mut Model,
    tally: &mut Tally,
) -> Result<(), ToolRefusal>
    requires { f < length model.old.metamodel.features }
    ensures done { (out : Outcomes) → Went (run out (edit_by place (Ok (change.Unset o f))) (work model.old tally.old)) result model.new tally.new }
    ensures counted { tally.new.expressions ≡ tally.old.expressions }
    ensures same { model.new.metamodel ≡ model.old.metamodel }
{
    let change = Ok(Edit::Unset {
        object: o,
        feature: f,
    });
    edit_by(alloc, place, change, model, tally)
}

// The objects that stand in a slot at first are removed.
fn remove_content(
    alloc: Global,
    place: u32,
    o: ObjectId,
    f: FeatureId,
    model: &mut Model,
    tally: &mut Tally,
) -> Result<(), ToolRefusal>
    ensures done { (out : Outcomes) → Went (run out (each (λ p. edit_by place (Ok (change.Remove p))) (objects_in (slot model.old o f))) (work model.old tally.old)) result model.new tally.new }
    ensures counted { tally.new.expressions ≡ tally.old.expressions }
    ensures same { model.new.metamodel ≡ model.old.metamodel }
{
    let objects = objects_in(alloc, model.get(o, f))?;
    remove_each(alloc, place, objects.as_slice(), model, tally)
}

fn objects_in(alloc: Global, values: &[Scalar]) -> Result<Vec<ObjectId>, AllocError>
    ensures { IfOk result (λ objects. objects.items ≡ objects_in values.now) }
{
    let mut objects = Vec::new(alloc);
    for value in values {
        if let Scalar::Object(o) = value {
            objects.push(*o)?;
        }
    }
    Ok(objects)
}

fn remove_each(
    alloc: Global,
    place: u32,
    objects: &[ObjectId],
    model: &mut Model,
    tally: &mut Tally,
) -> Result<(), ToolRefusal>
    ensures done { (out : Outcomes) → Went (run out (each (λ p. edit_by place (Ok (change.Remove p))) objects.now) (work model.old tally.old)) result model.new tally.new }
    ensures counted { tally.new.expressions ≡ tally.old.expressions }
    ensures same { model.new.metamodel ≡ model.old.metamodel }
{
    for object in objects {
        let change = Ok(Edit::Remove { object: *object });
        edit_by(alloc, place, change, model, tally)?;
    }
    Ok(())
}

/// Values are taken from the feature of an object.
pub fn take_all(
    alloc: Global,
    place: u32,
    o: ObjectId,
    name: &Name,
    values: &[Scalar],
    model: &mut Model,
    tally: &mut Tally,
) -> Result<(), ToolRefusal>
    ensures done { (out : Outcomes) → Went (run out (take_all place o name.now values.now) (work model.old tally.old)) result model.new tally.new }
    ensures counted { tally.new.expressions ≡ tally.old.expressions }
    ensures same { model.new.metamodel ≡ model.old.metamodel }
{
    let f = feature_at(place, model, o, name)?;
    let sort = sort_of(model.metamodel(), f);
    take_by(alloc, place, o, f, values, sort, model, tally)
}

fn take_by(
    alloc: Global,
    place: u32,
    o: ObjectId,
    f: FeatureId,
    values: &[Scalar],
    sort: FeatureSort,
    model: &mut Model,
    tally: &mut Tally,
) -> Result<(), ToolRefusal>
    requires { f < length model.old.metamodel.features }
    ensures done { (out : Outcomes) → Went (run out (take_by place o f values.now sort) (work model.old tally.old)) result model.new tally.new }
    ensures counted { tally.new.expressions ≡ tally.old.expressions }
    ensures same { model.new.metamodel ≡ model.old.metamodel }
{
    match sort {
        FeatureSort::Many => with_values(alloc, Way::Take, place, o, f, values, model, tally),
        FeatureSort::Single => mismatch(place),
        FeatureSort::Containment => mismatch(place),
        FeatureSort::Container => mismatch(place),
    }
}

fn mismatch(place: u32) -> Result<(), ToolRefusal>
    ensures { result ≡ Err (refusal.Model place KindMismatch) }
{
    Err(ToolRefusal::Model(place, ModelRefusal::KindMismatch))
}
