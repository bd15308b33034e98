ghost use Rattle.std.specs.Prelude.{◌≡◌, ◌<◌, false, length, IsSome, OnOk, OnErr};
ghost use Rattle.wb_store.specs.declared.scalars.Scalar.TheVariants.{Object};
ghost use Rattle.wb_store.specs.Contents.{kind};
ghost use Rattle.wb_store.specs.Relinking.{link, stands};
ghost use Rattle.wb_model.specs.Edits.{moved, move_to, Edited};
ghost use Rattle.wb_validity.specs.Valid.{IsValid};

use crate::edits::checks::stands;
use crate::edits::links::{put_ends, unlink};
use crate::edits::places::checked_move;
use crate::refusals::ModelRefusal;
use std::alloc::{AllocError, Global};
use wb_metamodel::{FeatureId, ObjectId};
use wb_store::{Scalar, Store};

/// An object leaves its container, or the roots, and goes last in a containment slot, unless it stands there.
pub fn move_to(
    store: &mut Store,
    alloc: Global,
    o: ObjectId,
    p: ObjectId,
    f: FeatureId,
) -> Result<(), ModelRefusal>
    requires valid { IsValid store.old }
    requires known { f < length store.old.metamodel.features }
    ensures { Edited result (move_to store.old o p f) store.old store.new }
{
    checked_move(alloc, store, o, p, f)?;
    if stands(store, p, f, &Scalar::Object(o)) {
        return Ok(());
    }
    rehouse(store, alloc, o, p, f)?;
    Ok(())
}

// An object comes to a containment slot, and then leaves where it was.
fn rehouse(
    store: &mut Store,
    alloc: Global,
    o: ObjectId,
    p: ObjectId,
    f: FeatureId,
) -> Result<(), AllocError>
    requires valid { IsValid store.old }
    requires moved { IsSome (kind store.old o) }
    requires to { IsSome (kind store.old p) }
    requires known { f < length store.old.metamodel.features }
    requires fresh { stands store.old (link p f (Object o)) ≡ false }
    ensures ok { OnOk result (store.new ≡ moved o p f store.old) }
    ensures err { OnErr result (store.new ≡ store.old) }
{
    store.metamodel().well_formed();
    let old = store.holder(o);
    put_ends(store, alloc, p, f, o)?;
    match old {
        Some(place) => unlink(store, alloc, place.0, place.1, &Scalar::Object(o)),
        None => store.drop_root(alloc, o),
    }
    Ok(())
}
