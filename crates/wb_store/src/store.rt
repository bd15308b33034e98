ghost use Rattle.std.specs.Prelude.{◌≡◌, ◌<◌, ◌^◌, ℕ, suc, true, [], length, IsSome, IfSome, IfOk, OnOk, OnErr};
ghost use Rattle.std.specs.FinMap.{len};
ghost use Rattle.wb_store.specs.Contents.{kind, slot, empty_contents, with_next};
ghost use Rattle.wb_store.specs.Cells.{holder};
ghost use Rattle.wb_store.specs.Relinking.{link, without_root, without};
ghost use Rattle.wb_store.specs.LinkSteps.{with_link, with_only, without_link, without_slot, with_root, Grows};
ghost use Rattle.std.specs.List.{list_all};
ghost use Rattle.wb_store.specs.Places.{rises};
ghost use Rattle.wb_store.specs.Records.{is_known_slot, feature_of};

use crate::arranged::sorted_records;
use crate::copies::{copy_objects, copy_records};
use crate::object_sets::ObjectSet;
use crate::parts::Part;
use crate::records::{Record, Slot, find_object, holding_object, values_of};
use crate::removals::{drop_from_records, drop_objects, drop_records};
use crate::scalars::Scalar;
use crate::slots::alone;
use crate::slots_of_objects::{drop_from, push_to, replace_at, take_from};
use std::alloc::{AllocError, Global};
use std::marker::Model;
use std::mem;
use wb_base::{Duplicate, List};
use wb_metamodel::{ClassId, FeatureId, Metamodel, ObjectId};

/// Objects with their slots, whether they make a valid model or not.
pub struct Store {
    metamodel: Metamodel,
    next: u32,
    // ascending by number, so that an object is found by halving
    records: Vec<Record>,
    roots: List<ObjectId>,
}

impl Drop for Store {
    fn drop(self) {
        let Store {
            metamodel: _metamodel,
            next: _,
            records: _records,
            roots: _roots,
        } = self;
    }
}

impl Model for Store {
    ghost use Rattle.wb_store.specs.Contents.{Contents};
    ghost use Rattle.std.specs.Coded.{codes};
    ghost use Rattle.std.specs.FinMap as map;

    ghost Value = { Contents };

    ghost coded = { Prim.hlevel (codes, map.code) };

    ghost use Rattle.wb_store.specs.Records.{contents_of};
    ghost use Rattle.wb_store.specs.invariants.Plain.{IsPlain};

    ghost view = { λ s. contents_of s.metamodel s.next s.records.items s.roots };

    ghost invariant = { λ s. IsPlain s.metamodel s.records.items };
}

impl Store {
    ghost use Rattle.std.specs.Prelude.{List as Many};
    ghost use Rattle.wb_store.specs.declared.records.Record.{Record as Kept};
    ghost use Rattle.wb_store.specs.invariants.Links.{Kept as IsKept};
    ghost use Rattle.wb_store.specs.Records.{contents_of};
    ghost use Rattle.wb_store.specs.invariants.Plain.{IsPlain};
    ghost use Rattle.wb_store.specs.Parts.{AreParts, made_of};

    /// No objects, and the numbers from 1 on.
    pub fn new(alloc: Global, metamodel: Metamodel) -> Store
        ensures { result ≡ empty_contents metamodel }
    {
        Store {
            metamodel,
            next: 1,
            records: Vec::new(alloc),
            roots: List::new(alloc),
        }
    }

    /// The objects of parts.
    pub fn from_parts(
        alloc: Global,
        metamodel: Metamodel,
        next: u32,
        objects: List<Part>,
        roots: List<ObjectId>,
    ) -> Result<Store, AllocError>
        requires { AreParts metamodel objects }
        ensures { IfOk result (λ store. store ≡ made_of metamodel next objects roots) }
    {
        let records = sorted_records(alloc, objects)?;
        Ok(Store {
            metamodel,
            next,
            records,
            roots,
        })
    }

    pub fn metamodel(&self) -> &Metamodel
        ensures { result.now ≡ self.now.metamodel }
    {
        &self.metamodel
    }

    pub fn next(&self) -> u32
        ensures { result ≡ self.now.next }
    {
        self.next
    }

    pub fn roots(&self) -> &[ObjectId]
        ensures { result.now ≡ self.now.roots }
    {
        self.roots.as_slice()
    }

    /// What is true of every store.
    pub fn is_kept(&self)
        ensures { (records : Many Kept) × IsKept self.now records }
    {
        let _ = &self.records;
    }

    /// The objects, ascending by number.
    pub fn records(&self) -> &[Record]
        ensures shown { self.now ≡ contents_of self.now.metamodel self.now.next result.now self.now.roots }
        ensures plain { IsPlain self.now.metamodel result.now }
    {
        self.records.as_slice()
    }

    /// How many objects are live.
    pub fn len(&self) -> usize
        ensures { result ≡ len self.now.kinds }
    {
        self.records.as_slice().len()
    }

    /// The class of an object, none where it is not live.
    pub fn kind(&self, o: ObjectId) -> Option<ClassId>
        ensures value { result ≡ kind self.now o }
        ensures known { IfSome result (λ c. c < length self.now.metamodel.classes) }
    {
        match find_object(&self.records, o) {
            Some(record) => Some(record.class),
            None => None,
        }
    }

    /// The values of an object and a feature, in order.
    pub fn get(&self, o: ObjectId, f: FeatureId) -> &[Scalar]
        ensures { result.now ≡ slot self.now o f }
    {
        match find_object(&self.records, o) {
            Some(record) => values_of(record.slots.as_slice(), f),
            None => &[],
        }
    }

    /// The container of an object, and the feature that holds it.
    pub fn holder(&self, o: ObjectId) -> Option<(ObjectId, FeatureId)>
        ensures { result ≡ holder self.now o }
    {
        holding_object(&self.metamodel, self.records.as_slice(), o)
    }

    /// Puts a value last in a slot of a live object.
    pub fn put_last(
        &mut self,
        alloc: Global,
        o: ObjectId,
        f: FeatureId,
        value: Scalar,
    ) -> Result<(), AllocError>
        requires live { IsSome (kind self.old o) }
        requires known { f < length self.old.metamodel.features }
        ensures ok { OnOk result (self.new ≡ with_link (link o f value) self.old) }
        ensures err { OnErr result (self.new ≡ self.old) }
    {
        push_to(alloc, &mut self.records, o, f, value)
    }

    /// Makes a value the only one in a slot of a live object.
    pub fn put_alone(
        &mut self,
        alloc: Global,
        o: ObjectId,
        f: FeatureId,
        value: Scalar,
    ) -> Result<(), AllocError>
        requires live { IsSome (kind self.old o) }
        requires known { f < length self.old.metamodel.features }
        ensures ok { OnOk result (self.new ≡ with_only (link o f value) self.old) }
        ensures err { OnErr result (self.new ≡ self.old) }
    {
        let values = alone(alloc, value)?;
        replace_at(alloc, &mut self.records, o, f, values)
    }

    /// Takes a value out of a slot.
    pub fn drop_value(&mut self, alloc: Global, o: ObjectId, f: FeatureId, value: &Scalar)
        requires { f < length self.old.metamodel.features }
        ensures { self.new ≡ without_link (link o f value.now) self.old }
    {
        drop_from(alloc, &mut self.records, o, f, value);
    }

    /// Takes all values out of a slot.
    pub fn take_values(&mut self, alloc: Global, o: ObjectId, f: FeatureId) -> List<Scalar>
        requires { f < length self.old.metamodel.features }
        ensures taken { result ≡ slot self.old o f }
        ensures left { self.new ≡ without_slot o f self.old }
    {
        take_from(alloc, &mut self.records, o, f)
    }

    /// Puts an object last in the roots.
    pub fn push_root(&mut self, o: ObjectId) -> Result<(), AllocError>
        ensures ok { OnOk result (self.new ≡ with_root o self.old) }
        ensures err { OnErr result (self.new ≡ self.old) }
    {
        self.roots.push(o)?;
        Ok(())
    }

    /// Takes an object out of the roots.
    pub fn drop_root(&mut self, alloc: Global, o: ObjectId)
        ensures { self.new ≡ without_root o self.old }
    {
        let mut kept = mem::replace(&mut self.roots, List::new(alloc)).into_vec();
        kept.retain(|root| *root != o);
        self.roots = List::from_vec(kept);
    }

    /// The next object gets another number.
    pub fn set_next(&mut self, next: u32)
        ensures { self.new ≡ with_next next self.old }
    {
        self.next = next;
    }

    /// Deletes objects, with every occurrence of them.
    pub fn without(&mut self, alloc: Global, dead: &ObjectSet)
        ensures { self.new ≡ without dead.now self.old }
    {
        drop_records(&mut self.records, dead);
        drop_from_records(alloc, &mut self.records, dead);
        drop_objects(alloc, &mut self.roots, dead);
    }

    /// One more object, with the next number.
    pub fn push_object(&mut self, class: ClassId, slots: List<Slot>) -> Result<(), AllocError>
        requires class { class < length self.old.metamodel.classes }
        requires known { list_all (is_known_slot self.old.metamodel) slots ≡ true }
        requires rise { rises feature_of slots ≡ true }
        requires fresh { (o : ℕ) → IsSome (kind self.old o) → o < self.old.next }
        requires next { suc self.old.next < 2 ^ 32 }
        ensures ok { OnOk result (Grows class slots self.old self.new) }
        ensures err { OnErr result (self.new ≡ self.old) }
    {
        let id = ObjectId(self.next);
        self.records.push(Record { id, class, slots })?;
        self.next += 1;
        Ok(())
    }
}

impl Duplicate for Store {
    fn copy(&self, alloc: Global) -> Result<Store, AllocError> {
        Ok(Store {
            metamodel: self.metamodel.copy(alloc)?,
            next: self.next,
            records: copy_records(alloc, &self.records)?,
            roots: copy_objects(alloc, self.roots.as_slice())?,
        })
    }
}
