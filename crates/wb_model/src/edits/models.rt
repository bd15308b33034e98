ghost use Rattle.std.specs.Prelude.{◌≡◌, ◌<◌, length, IfOk};
ghost use Rattle.wb_model.specs.EditChecks.{PlaceIsKnown};
ghost use Rattle.wb_model.specs.Edits.{set, add, take_out, unset, move_to, create, remove, Edited};
ghost use Rattle.wb_model.specs.GivenEdits.{edit_of, EditIsKnown, none_made, number_made};

use crate::change_list::ChangeList;
use crate::edits::creations::create;
use crate::edits::edit::Edit;
use crate::edits::features::{add, set, take, unset};
use crate::edits::moves::move_to;
use crate::edits::removals::remove;
use crate::model::Model;
use crate::refusals::ModelRefusal;
use std::alloc::Global;
use wb_metamodel::{ClassId, FeatureId, ObjectId};
use wb_store::{Place, Scalar};

impl Model {
    /// The slot of a single plain feature becomes the value alone.
    pub fn set(
        &mut self,
        alloc: Global,
        o: ObjectId,
        f: FeatureId,
        value: Scalar,
        _log: &mut ChangeList,
    ) -> Result<(), ModelRefusal>
        requires { f < length self.old.metamodel.features }
        ensures { Edited result (set self.old o f value) self.old self.new }
    {
        self.store.metamodel().well_formed();
        set(&mut self.store, alloc, o, f, value)
    }

    /// The value goes last in the slot of a plain feature of many values, unless it is there.
    pub fn add(
        &mut self,
        alloc: Global,
        o: ObjectId,
        f: FeatureId,
        value: Scalar,
        _log: &mut ChangeList,
    ) -> Result<(), ModelRefusal>
        requires { f < length self.old.metamodel.features }
        ensures { Edited result (add self.old o f value) self.old self.new }
    {
        self.store.metamodel().well_formed();
        add(&mut self.store, alloc, o, f, value)
    }

    /// The value leaves the slot of a plain feature of many values; the others keep their order.
    pub fn take(
        &mut self,
        alloc: Global,
        o: ObjectId,
        f: FeatureId,
        value: &Scalar,
        _log: &mut ChangeList,
    ) -> Result<(), ModelRefusal>
        requires { f < length self.old.metamodel.features }
        ensures { Edited result (take_out self.old o f value.now) self.old self.new }
    {
        self.store.metamodel().well_formed();
        take(&mut self.store, alloc, o, f, value)
    }

    /// The slot of a plain feature becomes empty.
    pub fn unset(
        &mut self,
        alloc: Global,
        o: ObjectId,
        f: FeatureId,
        _log: &mut ChangeList,
    ) -> Result<(), ModelRefusal>
        requires { f < length self.old.metamodel.features }
        ensures { Edited result (unset self.old o f) self.old self.new }
    {
        self.store.metamodel().well_formed();
        unset(&mut self.store, alloc, o, f)
    }

    /// An object leaves its container, or the roots, and goes last in a containment slot, unless it stands there.
    pub fn move_to(
        &mut self,
        alloc: Global,
        o: ObjectId,
        p: ObjectId,
        f: FeatureId,
        _log: &mut ChangeList,
    ) -> Result<(), ModelRefusal>
        requires { f < length self.old.metamodel.features }
        ensures { Edited result (move_to self.old o p f) self.old self.new }
    {
        self.store.metamodel().well_formed();
        move_to(&mut self.store, alloc, o, p, f)
    }

    /// A new object, last in its place. Its number is answered: the one that was next.
    pub fn create(
        &mut self,
        alloc: Global,
        class: ClassId,
        place: Place,
        _log: &mut ChangeList,
    ) -> Result<ObjectId, ModelRefusal>
        requires class { class < length self.old.metamodel.classes }
        requires place { PlaceIsKnown self.old.metamodel place }
        ensures edited { Edited result (create self.old class place) self.old self.new }
        ensures number { IfOk result (λ o. o ≡ self.old.next) }
    {
        self.store.metamodel().well_formed();
        let o = ObjectId(self.store.next());
        match create(&mut self.store, alloc, class, place) {
            Ok(()) => Ok(o),
            Err(refusal) => Err(refusal),
        }
    }

    /// An object and all that it contains are deleted, with every occurrence of them in every slot.
    pub fn remove(
        &mut self,
        alloc: Global,
        o: ObjectId,
        _log: &mut ChangeList,
    ) -> Result<(), ModelRefusal>
        ensures { Edited result (remove self.old o) self.old self.new }
    {
        self.store.metamodel().well_formed();
        remove(&mut self.store, alloc, o)
    }

    /// The edit that is given. Answered is the number of the object that it makes, if it makes one.
    pub fn edit(
        &mut self,
        alloc: Global,
        edit: Edit,
        log: &mut ChangeList,
    ) -> Result<Option<ObjectId>, ModelRefusal>
        requires { EditIsKnown self.old.metamodel edit }
        ensures edited { Edited result (edit_of edit self.old) self.old self.new }
        ensures number { IfOk result (λ made. made ≡ number_made edit self.old) }
    {
        match edit {
            Edit::Create { class, place } => Ok(Some(self.create(alloc, class, place, log)?)),
            Edit::Set {
                object,
                feature,
                value,
            } => none_made(self.set(alloc, object, feature, value, log)),
            Edit::Add {
                object,
                feature,
                value,
            } => none_made(self.add(alloc, object, feature, value, log)),
            Edit::Take {
                object,
                feature,
                value,
            } => none_made(self.take(alloc, object, feature, &value, log)),
            Edit::Unset { object, feature } => {
                none_made(self.unset(alloc, object, feature, log))
            }
            Edit::MoveTo {
                object,
                container,
                feature,
            } => none_made(self.move_to(alloc, object, container, feature, log)),
            Edit::Remove { object } => none_made(self.remove(alloc, object, log)),
        }
    }
}

// The answer of an edit that makes no object.
fn none_made(answer: Result<(), ModelRefusal>) -> Result<Option<ObjectId>, ModelRefusal>
    ensures { result ≡ none_made answer }
{
    match answer {
        Ok(()) => Ok(None),
        Err(refusal) => Err(refusal),
    }
}
