ghost use Rattle.std.specs.Prelude.{◌≡◌, ◌++◌, ◌<◌, All, length, IfOk, OnOk};
ghost use Rattle.wb_store.specs.Cells.{content, features, objects_in};

use crate::records::is_containment;
use crate::scalars::Scalar;
use crate::store::Store;
use std::alloc::{AllocError, Global};
use wb_metamodel::{FeatureId, ObjectId};

impl Store {
    /// What an object contains directly: by the features of its class, and then by place in the slot.
    pub fn content(&self, alloc: Global, o: ObjectId) -> Result<Vec<ObjectId>, AllocError>
        ensures { IfOk result (λ os. os.items ≡ content self.now o) }
    {
        let mut content = Vec::new(alloc);
        for f in self.features(o) {
            if is_containment(self.metamodel(), *f) {
                push_objects(&mut content, self.get(o, *f))?;
            }
        }
        Ok(content)
    }

    // The features that an object has by its class, none where it is not live.
    fn features(&self, o: ObjectId) -> &[FeatureId]
        ensures features { result.now ≡ features self.now o }
        ensures known { All (λ f. f < length self.now.metamodel.features) result.now }
    {
        match self.kind(o) {
            Some(class) => self.metamodel().features_of(class),
            None => &[],
        }
    }
}

fn push_objects(objects: &mut Vec<ObjectId>, values: &[Scalar]) -> Result<(), AllocError>
    ensures { OnOk result (objects.new.items ≡ objects.old.items ++ objects_in values.now) }
{
    for value in values {
        if let Scalar::Object(o) = value {
            objects.push(*o)?;
        }
    }
    Ok(())
}
