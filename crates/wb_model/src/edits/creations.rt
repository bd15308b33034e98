ghost use Rattle.std.specs.Prelude.{◌≡◌, ◌<◌, ◌^◌, suc, true, None, length, IsSome, IfOk, OnOk, OnErr};
ghost use Rattle.wb_store.specs.declared.scalars.Place.TheVariants.{Root, In};
ghost use Rattle.wb_store.specs.Contents.{kind, is_containment};
ghost use Rattle.wb_model.specs.EditChecks.{PlaceIsKnown};
ghost use Rattle.wb_model.specs.Edits.{create, created, refusal_of_create, Edited};
ghost use Rattle.wb_store.specs.LinkSteps.{back_slots};
ghost use Rattle.wb_validity.specs.Valid.{IsValid};

use crate::edits::checks::opposite_of;
use crate::edits::places::checked_create;
use crate::refusals::ModelRefusal;
use std::alloc::{AllocError, Global};
use wb_base::List;
use wb_metamodel::{ClassId, FeatureId, Metamodel, ObjectId};
use wb_store::{Place, Scalar, Slot, Store, alone};

/// A new object with the next number, last in its place.
pub fn create(
    store: &mut Store,
    alloc: Global,
    class: ClassId,
    place: Place,
) -> Result<(), ModelRefusal>
    requires valid { IsValid store.old }
    requires class { class < length store.old.metamodel.classes }
    requires place { PlaceIsKnown store.old.metamodel place }
    ensures { Edited result (create store.old class place) store.old store.new }
{
    checked_create(store, class, &place)?;
    create_at(store, alloc, class, place)?;
    Ok(())
}

fn create_at(
    store: &mut Store,
    alloc: Global,
    class: ClassId,
    place: Place,
) -> Result<(), AllocError>
    requires valid { IsValid store.old }
    requires class { class < length store.old.metamodel.classes }
    requires place { PlaceIsKnown store.old.metamodel place }
    requires accepted { refusal_of_create store.old class place ≡ None }
    ensures ok { OnOk result (store.new ≡ created class place store.old) }
    ensures err { OnErr result (store.new ≡ store.old) }
{
    match place {
        Place::Root => create_root(store, alloc, class),
        Place::In(p, f) => create_in(store, alloc, class, p, f),
    }
}

fn create_root(store: &mut Store, alloc: Global, class: ClassId) -> Result<(), AllocError>
    requires valid { IsValid store.old }
    requires class { class < length store.old.metamodel.classes }
    requires next { suc store.old.next < 2 ^ 32 }
    ensures ok { OnOk result (store.new ≡ created class Root store.old) }
    ensures err { OnErr result (store.new ≡ store.old) }
{
    let o = ObjectId(store.next());
    store.push_root(o)?;
    let pushed = store.push_object(class, List::new(alloc));
    if pushed.is_err() {
        store.drop_root(alloc, o);
    }
    pushed
}

fn create_in(
    store: &mut Store,
    alloc: Global,
    class: ClassId,
    p: ObjectId,
    f: FeatureId,
) -> Result<(), AllocError>
    requires valid { IsValid store.old }
    requires class { class < length store.old.metamodel.classes }
    requires next { suc store.old.next < 2 ^ 32 }
    requires live { IsSome (kind store.old p) }
    requires containment { is_containment store.old.metamodel f ≡ true }
    requires known { f < length store.old.metamodel.features }
    ensures ok { OnOk result (store.new ≡ created class (In p f) store.old) }
    ensures err { OnErr result (store.new ≡ store.old) }
{
    store.metamodel().well_formed();
    let o = ObjectId(store.next());
    let slots = back_slots(alloc, store.metamodel(), f, p)?;
    store.put_last(alloc, p, f, Scalar::Object(o))?;
    let pushed = store.push_object(class, slots);
    if pushed.is_err() {
        store.drop_value(alloc, p, f, &Scalar::Object(o));
    }
    pushed
}

// The slots of a new object that comes into a slot of another: the way back to it, if there is one.
fn back_slots(
    alloc: Global,
    metamodel: &Metamodel,
    f: FeatureId,
    p: ObjectId,
) -> Result<List<Slot>, AllocError>
    requires { f < length metamodel.now.features }
    ensures { IfOk result (λ slots. slots ≡ back_slots metamodel.now f p) }
{
    let mut slots = List::new(alloc);
    if let Some(feature) = opposite_of(metamodel, f) {
        let values = alone(alloc, Scalar::Object(p))?;
        slots.push(Slot { feature, values })?;
    }
    Ok(slots)
}
