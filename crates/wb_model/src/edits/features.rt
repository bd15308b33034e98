ghost use Rattle.std.specs.Prelude.{◌<◌, length};
ghost use Rattle.wb_model.specs.Edits.{set, add, take_out, unset, Edited};
ghost use Rattle.wb_validity.specs.Valid.{IsValid};

use crate::edits::checks::{checked_link, checked_take, checked_unset};
use crate::edits::links::{empty_slot, link_up, unlink};
use crate::refusals::ModelRefusal;
use std::alloc::Global;
use wb_metamodel::{FeatureId, ObjectId};
use wb_store::{Scalar, Store};

/// The slot of a single plain feature becomes the value alone.
pub fn set(
    store: &mut Store,
    alloc: Global,
    o: ObjectId,
    f: FeatureId,
    value: Scalar,
) -> Result<(), ModelRefusal>
    requires valid { IsValid store.old }
    requires known { f < length store.old.metamodel.features }
    ensures { Edited result (set store.old o f value) store.old store.new }
{
    checked_link(store, false, o, f, &value)?;
    link_up(store, alloc, o, f, value)?;
    Ok(())
}

/// The value goes last in the slot of a plain feature of many values, unless it is there.
pub fn add(
    store: &mut Store,
    alloc: Global,
    o: ObjectId,
    f: FeatureId,
    value: Scalar,
) -> Result<(), ModelRefusal>
    requires valid { IsValid store.old }
    requires known { f < length store.old.metamodel.features }
    ensures { Edited result (add store.old o f value) store.old store.new }
{
    checked_link(store, true, o, f, &value)?;
    link_up(store, alloc, o, f, value)?;
    Ok(())
}

/// The value leaves the slot of a plain feature of many values.
pub fn take(
    store: &mut Store,
    alloc: Global,
    o: ObjectId,
    f: FeatureId,
    value: &Scalar,
) -> Result<(), ModelRefusal>
    requires { f < length store.old.metamodel.features }
    ensures { Edited result (take_out store.old o f value.now) store.old store.new }
{
    checked_take(store, o, f, value)?;
    unlink(store, alloc, o, f, value);
    Ok(())
}

/// The slot of a plain feature becomes empty.
pub fn unset(
    store: &mut Store,
    alloc: Global,
    o: ObjectId,
    f: FeatureId,
) -> Result<(), ModelRefusal>
    requires valid { IsValid store.old }
    requires known { f < length store.old.metamodel.features }
    ensures { Edited result (unset store.old o f) store.old store.new }
{
    checked_unset(store, o, f)?;
    empty_slot(store, alloc, o, f);
    Ok(())
}
