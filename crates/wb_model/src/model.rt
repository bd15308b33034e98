ghost use Rattle.std.specs.Prelude.{◌≡◌, ◌==◌, ◌<◌, ◌≤◌, length, IfOk, IfSome};
ghost use Rattle.std.specs.FinMap.{keys, len};
ghost use Rattle.wb_store.specs.Contents.{kind, slot, empty_contents, with_next};
ghost use Rattle.wb_store.specs.Cells.{extent, holder, inverse, tree};
ghost use Rattle.wb_validity.specs.Valid.{IsValid, conforms_to};

use std::alloc::{AllocError, Global};
use wb_base::{Duplicate, List};
use wb_metamodel::{ClassId, FeatureId, Metamodel, ObjectId};
use wb_store::{Scalar, Store};
use wb_validity::tree;

/// A valid model: objects of a metamodel's classes, with the values of their features.
#[derive(Drop)]
pub struct Model {
    pub(crate) store: Store,
}

impl std::marker::Model for Model {
    ghost use Rattle.std.specs.Coded.{codes};
    ghost use Rattle.std.specs.FinMap as map;
    ghost use Rattle.wb_store.specs.Contents.{Contents};
    ghost use Rattle.wb_validity.specs.Valid.{IsValid};

    ghost Value = { Contents };

    ghost coded = { Prim.hlevel (codes, map.code) };

    ghost view = { λ m. m.store };

    ghost invariant = { λ m. IsValid m.store };
}

/// A model without objects, whose first object will have the number 1.
pub fn empty(alloc: Global, metamodel: Metamodel) -> Result<Model, AllocError>
    ensures { IfOk result (λ m. m ≡ empty_contents metamodel) }
{
    let store = Store::new(alloc, metamodel);
    Ok(Model { store })
}

impl Model {
    /// The model of objects that are valid.
    pub(crate) fn new(store: Store) -> Model
        requires { IsValid store }
        ensures { result ≡ store }
    {
        Model { store }
    }

    /// What is true of every model.
    pub fn valid(&self)
        ensures { IsValid self.now }
    {
        let _ = &self.store;
    }

    pub fn metamodel(&self) -> &Metamodel
        ensures { result.now ≡ self.now.metamodel }
    {
        self.store.metamodel()
    }

    /// The number that the next object gets.
    pub fn next(&self) -> u32
        ensures { result ≡ self.now.next }
    {
        self.store.next()
    }

    pub fn roots(&self) -> &[ObjectId]
        ensures { result.now ≡ self.now.roots }
    {
        self.store.roots()
    }

    /// How many objects are live.
    pub fn len(&self) -> usize
        ensures { result ≡ len self.now.kinds }
    {
        self.store.len()
    }

    pub fn is_empty(&self) -> bool
        ensures { result ≡ (len self.now.kinds == 0) }
    {
        self.store.len() == 0
    }

    /// The class of an object, none where it is not live.
    pub fn kind(&self, o: ObjectId) -> Option<ClassId>
        ensures value { result ≡ kind self.now o }
        ensures known { IfSome result (λ c. c < length self.now.metamodel.classes) }
    {
        self.store.kind(o)
    }

    /// Is an object live, and of a class or of one below it?
    pub fn is_of_class(&self, o: ObjectId, class: ClassId) -> bool
        requires { class < length self.now.metamodel.classes }
        ensures { result ≡ conforms_to self.now class o }
    {
        match self.kind(o) {
            Some(own) => self.metamodel().conforms(own, class),
            None => false,
        }
    }

    /// The values of an object and a feature, in order; none of an object that is not live, or of another class's feature.
    pub fn get(&self, o: ObjectId, f: FeatureId) -> &[Scalar]
        ensures { result.now ≡ slot self.now o f }
    {
        self.store.get(o, f)
    }

    /// The container of an object, and the containment feature that holds it.
    pub fn holder(&self, o: ObjectId) -> Option<(ObjectId, FeatureId)>
        ensures { result ≡ holder self.now o }
    {
        self.store.holder(o)
    }

    /// What an object contains, directly or through others, each object before its own content.
    pub fn tree(&self, alloc: Global, o: ObjectId) -> Result<List<ObjectId>, AllocError>
        ensures { IfOk result (λ os. os ≡ tree self.now o) }
    {
        tree(&self.store, alloc, o)
    }

    /// The objects and plain references that hold an object, ascending.
    pub fn inverse(
        &self,
        alloc: Global,
        o: ObjectId,
    ) -> Result<List<(ObjectId, FeatureId)>, AllocError>
        ensures { IfOk result (λ pairs. pairs ≡ inverse self.now o) }
    {
        self.store.inverse(alloc, o)
    }

    /// The live objects, ascending.
    pub fn objects(&self, alloc: Global) -> Result<List<ObjectId>, AllocError>
        ensures { IfOk result (λ os. os ≡ keys self.now.kinds) }
    {
        self.store.objects(alloc)
    }

    /// The next object gets a number that is not less than the one it would get: those between are left out.
    pub fn raise_next(&mut self, next: u32)
        requires { self.old.next ≤ next }
        ensures { self.new ≡ with_next next self.old }
    {
        self.store.set_next(next);
    }

    /// The live objects that conform to a class, ascending.
    pub fn extent(&self, alloc: Global, c: ClassId) -> Result<List<ObjectId>, AllocError>
        requires { c < length self.now.metamodel.classes }
        ensures { IfOk result (λ os. os ≡ extent self.now c) }
    {
        self.store.extent(alloc, c)
    }
}

impl Duplicate for Model {
    fn copy(&self, alloc: Global) -> Result<Model, AllocError> {
        Ok(Model {
            store: self.store.copy(alloc)?,
        })
    }
}
