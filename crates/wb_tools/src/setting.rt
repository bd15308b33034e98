ghost use Rattle.std.specs.Prelude.{◌≡◌, ◌<◌, length};
ghost use Rattle.wb_tools.specs.Doings.{each};
ghost use Rattle.wb_tools.specs.FeatureEdits.{set_all, set_by, set_one, with_value};
ghost use Rattle.wb_tools.specs.Runs.{Outcomes, Went, run, work};

use crate::editing::edit_by;
use crate::feature_edits::{change_of, feature_at};
use crate::feature_sorts::{FeatureSort, Way, sort_of};
use crate::refusals::ToolRefusal;
use crate::tally::Tally;
use std::alloc::Global;
use wb_json::Name;
use wb_metamodel::{FeatureId, ObjectId};
use wb_model::{Edit, Model, ModelRefusal};
use wb_store::Scalar;

/// The feature of an object gets these values.
pub fn set_all(
    alloc: Global,
    place: u32,
    o: ObjectId,
    name: &Name,
    values: &[Scalar],
    model: &mut Model,
    tally: &mut Tally,
) -> Result<(), ToolRefusal>
    ensures done { (out : Outcomes) → Went (run out (set_all place o name.now values.now) (work model.old tally.old)) result model.new tally.new }
    ensures counted { tally.new.expressions ≡ tally.old.expressions }
    ensures same { model.new.metamodel ≡ model.old.metamodel }
{
    let f = feature_at(place, model, o, name)?;
    let sort = sort_of(model.metamodel(), f);
    set_by(alloc, place, o, f, values, sort, model, tally)
}

fn set_by(
    alloc: Global,
    place: u32,
    o: ObjectId,
    f: FeatureId,
    values: &[Scalar],
    sort: FeatureSort,
    model: &mut Model,
    tally: &mut Tally,
) -> Result<(), ToolRefusal>
    requires { f < length model.old.metamodel.features }
    ensures done { (out : Outcomes) → Went (run out (set_by place o f values.now sort) (work model.old tally.old)) result model.new tally.new }
    ensures counted { tally.new.expressions ≡ tally.old.expressions }
    ensures same { model.new.metamodel ≡ model.old.metamodel }
{
    match sort {
        FeatureSort::Single => set_one(alloc, place, o, f, values, model, tally),
        FeatureSort::Many => with_values(alloc, Way::Add, place, o, f, values, model, tally),
        FeatureSort::Containment => {
            with_values(alloc, Way::Contain, place, o, f, values, model, tally)
        }
        FeatureSort::Container => Err(ToolRefusal::Model(place, ModelRefusal::KindMismatch)),
    }
}

fn set_one(
    alloc: Global,
    place: u32,
    o: ObjectId,
    f: FeatureId,
    values: &[Scalar],
    model: &mut Model,
    tally: &mut Tally,
) -> Result<(), ToolRefusal>
    requires { f < length model.old.metamodel.features }
    ensures done { (out : Outcomes) → Went (run out (set_one place o f values.now) (work model.old tally.old)) result model.new tally.new }
    ensures counted { tally.new.expressions ≡ tally.old.expressions }
    ensures same { model.new.metamodel ≡ model.old.metamodel }
{
    match values {
        [] => {
            let change = Ok(Edit::Unset {
                object: o,
                feature: f,
            });
            edit_by(alloc, place, change, model, tally)
        }
        [value, ..] => with_value(alloc, Way::Set, place, o, f, value, model, tally),
    }
}

/// The edits that values ask for, one after another.
pub fn with_values(
    alloc: Global,
    way: Way,
    place: u32,
    o: ObjectId,
    f: FeatureId,
    values: &[Scalar],
    model: &mut Model,
    tally: &mut Tally,
) -> Result<(), ToolRefusal>
    requires { f < length model.old.metamodel.features }
    ensures done { (out : Outcomes) → Went (run out (each (with_value way place o f) values.now) (work model.old tally.old)) result model.new tally.new }
    ensures counted { tally.new.expressions ≡ tally.old.expressions }
    ensures same { model.new.metamodel ≡ model.old.metamodel }
{
    for value in values {
        with_value(alloc, way, place, o, f, value, model, tally)?;
    }
    Ok(())
}

// The edit that a value asks for; a value that asks for none is refused.
fn with_value(
    alloc: Global,
    way: Way,
    place: u32,
    o: ObjectId,
    f: FeatureId,
    value: &Scalar,
    model: &mut Model,
    tally: &mut Tally,
) -> Result<(), ToolRefusal>
    requires { f < length model.old.metamodel.features }
    ensures done { (out : Outcomes) → Went (run out (with_value way place o f value.now) (work model.old tally.old)) result model.new tally.new }
    ensures counted { tally.new.expressions ≡ tally.old.expressions }
    ensures same { model.new.metamodel ≡ model.old.metamodel }
{
    match change_of(alloc, way, o, f, value)? {
        Some(change) => edit_by(alloc, place, Ok(change), model, tally),
        None => Err(ToolRefusal::Model(place, ModelRefusal::KindMismatch)),
    }
}
