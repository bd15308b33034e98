ghost use Rattle.std.specs.Prelude.{◌≡◌, ◌+◌, ◌<◌, ◌≤◌, length, IfOk, OnSome, option_copied};
ghost use Rattle.circular_buffer.specs.Buffer.{last_item};
ghost use Rattle.wb_history.specs.Stacks.{stepped, unbegun, with_future, with_past, without_newest_future, without_newest_past};

use circular_buffer::HeapCircularBuffer;
use std::alloc::{AllocError, Global};
use std::marker::Model;

/// The past and the future of a thing, the newest entry last in each. Together they hold at most as many entries as the capacity says.
#[derive(Drop)]
pub struct History<E: Drop> {
    past: HeapCircularBuffer<E>,
    future: HeapCircularBuffer<E>,
}

impl<E: Drop> Model for History<E> {
    ghost use Rattle.std.specs.Prelude.{◌≡◌, ◌+◌, ◌<◌, ◌≤◌, length};
    ghost use Rattle.wb_history.specs.Stacks.{Stacks, stacks_code, stacks};

    ghost Value = { Stacks E };

    ghost coded = { stacks_code E.code };

    ghost view = { λ h. stacks h.past.items h.future.items h.past.capacity };

    ghost invariant = { λ h. (h.future.capacity ≡ h.past.capacity) × (0 < h.past.capacity) × (length h.past.items + length h.future.items ≤ h.past.capacity) };
}

impl<E: Drop> History<E> {
    /// No past and no future. All room is taken here, and no other call takes any.
    pub fn new(alloc: Global, capacity: usize) -> Result<History<E>, AllocError>
        requires { 0 < capacity }
        ensures { IfOk result (λ h. h ≡ unbegun capacity) }
    {
        let past = HeapCircularBuffer::with_capacity(alloc, capacity)?;
        let future = HeapCircularBuffer::with_capacity(alloc, capacity)?;
        Ok(History { past, future })
    }

    /// A law: past and future together never outgrow the capacity, which is at least 1.
    pub fn keeps_within_capacity(&self)
        ensures some { 0 < self.now.capacity }
        ensures together { length self.now.past + length self.now.future ≤ self.now.capacity }
    {
        let _ = &self.past;
    }

    /// A step is taken: `entry` stood before it. A full past drops its oldest, and the future becomes empty.
    pub fn push(&mut self, entry: E)
        ensures { self.new ≡ stepped self.old entry }
    {
        self.future.clear();
        self.past.push_back(entry);
    }

    /// Takes the newest entry of the past; `None` where it is empty. What is taken makes room for one to put back.
    pub fn undo_entry(&mut self) -> Option<E>
        ensures entry { result ≡ last_item self.old.past }
        ensures rest { self.new ≡ without_newest_past self.old }
        ensures room { OnSome result (length self.new.past + length self.new.future < self.new.capacity) }
    {
        self.past.pop_back()
    }

    /// Takes the newest entry of the future; `None` where it is empty. What is taken makes room for one to put back.
    pub fn redo_entry(&mut self) -> Option<E>
        ensures entry { result ≡ last_item self.old.future }
        ensures rest { self.new ≡ without_newest_future self.old }
        ensures room { OnSome result (length self.new.past + length self.new.future < self.new.capacity) }
    {
        self.future.pop_back()
    }

    /// Puts an entry last in the past, and leaves the future.
    pub fn push_past(&mut self, entry: E)
        requires { length self.old.past + length self.old.future < self.old.capacity }
        ensures { self.new ≡ with_past self.old entry }
    {
        self.past.push_back(entry);
    }

    /// Puts an entry last in the future, and leaves the past.
    pub fn push_future(&mut self, entry: E)
        requires { length self.old.past + length self.old.future < self.old.capacity }
        ensures { self.new ≡ with_future self.old entry }
    {
        self.future.push_back(entry);
    }

    /// Lends the newest entry of the past.
    pub fn newest_past(&self) -> Option<&E>
        ensures { option_copied result ≡ last_item self.now.past }
    {
        self.past.back()
    }

    /// Lends the newest entry of the future.
    pub fn newest_future(&self) -> Option<&E>
        ensures { option_copied result ≡ last_item self.now.future }
    {
        self.future.back()
    }
}
