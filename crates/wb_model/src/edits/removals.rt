ghost use Rattle.std.specs.Prelude.{◌≡◌, ◌∷◌, IfOk};
ghost use Rattle.wb_store.specs.Cells.{tree};
ghost use Rattle.wb_model.specs.Edits.{remove, Edited};
ghost use Rattle.wb_validity.specs.Valid.{IsValid};

use crate::edits::checks::is_live;
use crate::refusals::ModelRefusal;
use std::alloc::{AllocError, Global};
use wb_metamodel::ObjectId;
use wb_store::{ObjectSet, Store};
use wb_validity::tree;

/// An object and all that it contains are deleted, with every occurrence of them in every slot.
pub fn remove(store: &mut Store, alloc: Global, o: ObjectId) -> Result<(), ModelRefusal>
    requires { IsValid store.old }
    ensures { Edited result (remove store.old o) store.old store.new }
{
    if !is_live(store, o) {
        return Err(ModelRefusal::UnknownObject);
    }
    let objects = with_content(store, alloc, o)?;
    let dead = ObjectSet::new(objects)?;
    store.without(alloc, &dead);
    Ok(())
}

// An object and all that it contains.
fn with_content(store: &Store, alloc: Global, o: ObjectId) -> Result<Vec<ObjectId>, AllocError>
    requires { IsValid store.now }
    ensures { IfOk result (λ objects. objects.items ≡ o ∷ tree store.now o) }
{
    let tree = tree(store, alloc, o)?;
    let mut objects = Vec::new(alloc);
    objects.push(o)?;
    objects.extend_from_slice(tree.as_slice())?;
    Ok(objects)
}
