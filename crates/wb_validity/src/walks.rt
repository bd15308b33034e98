ghost use Rattle.std.specs.Prelude.{◌≡◌, reverse, IfOk};
ghost use Rattle.wb_store.specs.Cells.{content, tree};
ghost use Rattle.wb_validity.specs.Valid.{IsValid};

use std::alloc::{AllocError, Global};
use wb_base::List;
use wb_metamodel::ObjectId;
use wb_store::Store;

/// What an object contains, directly or through others, each object before its own content.
pub fn tree(store: &Store, alloc: Global, o: ObjectId) -> Result<List<ObjectId>, AllocError>
    requires { IsValid store.now }
    ensures { IfOk result (λ os. os ≡ tree store.now o) }
{
    let mut tree = Vec::new(alloc);
    let mut to_come = content_backwards(store, alloc, o)?;
    while let Some(p) = to_come.pop() {
        tree.push(p)?;
        let content = content_backwards(store, alloc, p)?;
        to_come.extend_from_slice(&content)?;
    }
    Ok(List::from_vec(tree))
}

// What an object contains directly, the last one first.
fn content_backwards(store: &Store, alloc: Global, o: ObjectId) -> Result<Vec<ObjectId>, AllocError>
    ensures { IfOk result (λ os. os.items ≡ reverse (content store.now o)) }
{
    let mut content = store.content(alloc, o)?;
    content.reverse();
    Ok(content)
}
