ghost use Rattle.std.specs.Prelude.{◌≡◌, IfOk, OnOk};
ghost use Rattle.wb_answers.specs.SameKeys.{same_any, same_key};
ghost use Rattle.wb_marks.specs.Marks.{hidden_too, revealed, shown_too, unshown};
ghost use Rattle.wb_marks.specs.Ones.{with_one, without_one};

use crate::lists::{put_one, without_one};
use crate::marks::Marks;
use std::alloc::{AllocError, Global};
use wb_base::{Duplicate, List};
use wb_diagram::{AnyKey, Key};

impl Marks {
    /// A key is marked shown, last unless it was.
    pub fn shown_too(&self, alloc: Global, key: &Key) -> Result<Marks, AllocError>
        ensures { IfOk result (λ marks. marks ≡ shown_too key.now self.now) }
    {
        let mut marks = self.copy(alloc)?;
        put_key(alloc, &mut marks.shown, key)?;
        Ok(marks)
    }

    /// A key is no longer marked shown.
    pub fn unshown(&self, alloc: Global, key: &Key) -> Result<Marks, AllocError>
        ensures { IfOk result (λ marks. marks ≡ unshown key.now self.now) }
    {
        let mut marks = self.copy(alloc)?;
        marks.shown = keys_without(alloc, self.shown.as_slice(), key)?;
        Ok(marks)
    }

    /// A key is marked hidden, last unless it was.
    pub fn hidden_too(&self, alloc: Global, key: &AnyKey) -> Result<Marks, AllocError>
        ensures { IfOk result (λ marks. marks ≡ hidden_too key.now self.now) }
    {
        let mut marks = self.copy(alloc)?;
        put_any(alloc, &mut marks.hidden, key)?;
        Ok(marks)
    }

    /// A key is no longer marked hidden.
    pub fn revealed(&self, alloc: Global, key: &AnyKey) -> Result<Marks, AllocError>
        ensures { IfOk result (λ marks. marks ≡ revealed key.now self.now) }
    {
        let mut marks = self.copy(alloc)?;
        marks.hidden = any_without(alloc, self.hidden.as_slice(), key)?;
        Ok(marks)
    }
}

#[tactic(auto, using(crate::proofs::SameOnes::with_key))]
fn put_key(alloc: Global, keys: &mut List<Key>, key: &Key) -> Result<(), AllocError>
    ensures { OnOk result (keys.new ≡ with_one same_key key.now keys.old) }
{
    put_one(alloc, keys, key)
}

#[tactic(auto, using(crate::proofs::SameOnes::without_key))]
fn keys_without(alloc: Global, keys: &[Key], key: &Key) -> Result<List<Key>, AllocError>
    ensures { IfOk result (λ others. others ≡ without_one same_key key.now keys.now) }
{
    without_one(alloc, keys, key)
}

#[tactic(auto, using(crate::proofs::SameOnes::with_any))]
fn put_any(alloc: Global, keys: &mut List<AnyKey>, key: &AnyKey) -> Result<(), AllocError>
    ensures { OnOk result (keys.new ≡ with_one same_any key.now keys.old) }
{
    put_one(alloc, keys, key)
}

#[tactic(auto, using(crate::proofs::SameOnes::without_any))]
fn any_without(alloc: Global, keys: &[AnyKey], key: &AnyKey) -> Result<List<AnyKey>, AllocError>
    ensures { IfOk result (λ others. others ≡ without_one same_any key.now keys.now) }
{
    without_one(alloc, keys, key)
}
