ghost use Rattle.std.specs.Prelude.{◌≡◌, IfOk};
ghost use Rattle.std.specs.List.Sorted.{IsPermutation};
ghost use Rattle.wb_store.specs.Relinking.{is_among};

use std::alloc::AllocError;
use std::marker::Model;
use wb_metamodel::ObjectId;

/// Objects, kept so that it is soon seen whether one is among them.
#[derive(Drop)]
pub struct ObjectSet {
    // ascending, so that an object is found by halving
    objects: Vec<ObjectId>,
}

impl Model for ObjectSet {
    ghost use Rattle.std.specs.Prelude.{List, ℕ};
    ghost use Rattle.std.specs.Ordering.{nat_cmp};
    ghost use Rattle.std.specs.List.Sorted.{IsSorted};

    ghost Value = { List ℕ };

    ghost view = { λ s. s.objects.items };

    ghost invariant = { λ s. IsSorted nat_cmp s.objects.items };
}

impl ObjectSet {
    pub fn new(objects: Vec<ObjectId>) -> Result<ObjectSet, AllocError>
        ensures { IfOk result (λ set. IsPermutation objects.items set) }
    {
        let mut sorted = objects;
        sorted.sort()?;
        Ok(ObjectSet { objects: sorted })
    }

    pub fn contains(&self, o: ObjectId) -> bool
        ensures { result ≡ is_among self.now o }
    {
        self.objects.binary_search(&o).is_ok()
    }
}
