ghost use Rattle.std.specs.Prelude.{◌≡◌, IfOk};
ghost use Rattle.std.specs.FinMap.{keys};

use crate::store::Store;
use std::alloc::{AllocError, Global};
use wb_base::List;
use wb_metamodel::ObjectId;

impl Store {
    /// The live objects, ascending.
    pub fn objects(&self, alloc: Global) -> Result<List<ObjectId>, AllocError>
        ensures { IfOk result (λ os. os ≡ keys self.now.kinds) }
    {
        let mut objects = Vec::new(alloc);
        for record in self.records() {
            objects.push(record.id)?;
        }
        Ok(List::from_vec(objects))
    }
}
