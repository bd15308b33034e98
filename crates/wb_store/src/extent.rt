ghost use Rattle.std.specs.Prelude.{◌≡◌, ◌<◌, length, IfOk};
ghost use Rattle.wb_store.specs.Cells.{extent};

use crate::store::Store;
use std::alloc::{AllocError, Global};
use wb_base::List;
use wb_metamodel::{ClassId, ObjectId};

impl Store {
    /// The live objects that conform to a class, ascending.
    pub fn extent(&self, alloc: Global, c: ClassId) -> Result<List<ObjectId>, AllocError>
        requires { c < length self.now.metamodel.classes }
        ensures { IfOk result (λ os. os ≡ extent self.now c) }
    {
        let mut objects = Vec::new(alloc);
        for record in self.records() {
            if self.metamodel().conforms(record.class, c) {
                objects.push(record.id)?;
            }
        }
        Ok(List::from_vec(objects))
    }
}
