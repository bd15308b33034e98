//! The bytes of a connection that were read and not yet given out.
ghost use Rattle.std.specs.Prelude.{◌≡◌, ◌≤◌, ◌<◌, ◌+◌, ◌-◌, [], Some, IfOk, IfErr, OnOk, OnErr, length, take, drop};
ghost use Rattle.wb_outer.specs.declared.door.Next.{Next};
ghost use Rattle.wb_http.specs.Reading.{end_of};
ghost use Rattle.wb_http.specs.Fronts.{Fills, IsDoorEnd, IsWithinRoom, ReadsBehind, request_limit};

use crate::requests::RequestEnd;
use std::alloc::{AllocError, Global};
use std::marker::Model;
use wb_outer::{Door, Got};

// So many bytes are read at once.
const READ: usize = 16_384;

// The bytes of less than a request, and one more read, have room.
const ROOM: usize = 1_081_344;

/// The bytes that were read and not yet given out. All their room is taken at once.
#[derive(Drop)]
pub struct Held {
    room: Vec<u8>,
    len: usize,
}

impl Model for Held {
    ghost use Rattle.std.specs.Prelude.{◌≡◌, ◌≤◌, List, ℕ, take, length};

    ghost Value = { List ℕ };

    ghost view = { λ h. take h.len h.room.items };

    ghost invariant = { λ h. (length h.room.items ≡ 1081344) × (h.len ≤ 1081344) };
}

impl Held {
    /// No byte is held.
    pub fn new(alloc: Global) -> Result<Held, AllocError>
        ensures { IfOk result (λ held. held ≡ []) }
    {
        Ok(Held {
            room: vec![in alloc; 0; ROOM]?,
            len: 0,
        })
    }

    /// Forgets all bytes, for the next connection.
    pub fn clear(&mut self)
        ensures { self.new ≡ [] }
    {
        self.len = 0;
    }

    pub(crate) fn as_slice(&self) -> &[u8]
        ensures { result.now ≡ self.now }
    {
        &self.room.as_slice()[..self.len]
    }

    pub(crate) fn len(&self) -> usize
        ensures { result ≡ length self.now }
    {
        self.len
    }

    /// Gives out the first bytes.
    pub(crate) fn give(&mut self, count: usize)
        requires { count ≤ length self.old }
        ensures { self.new ≡ drop count self.old }
    {
        let len = self.len;
        shift(self.room.as_mut_slice(), len, count);
        self.len = len - count;
    }

    /// Reads once from the connection at hand.
    pub(crate) fn fill<D: Door>(&mut self, door: &mut D) -> Result<(), RequestEnd>
        requires at_hand { (D.told door.old).last ≡ Some Next.Line }
        requires has_room { length self.old < request_limit }
        ensures fills { Fills self.old self.new (D.told door.old) (D.told door.new) (end_of result) }
        ensures more { OnOk result (length self.old < length self.new) }
        ensures same { OnErr result (self.new ≡ self.old) }
        ensures ends { IfErr result IsDoorEnd }
    {
        let len = self.len;
        match read_behind(door, self.room.as_mut_slice(), len) {
            Got::Bytes(count) => {
                self.len = len + count;
                Ok(())
            }
            Got::End => Err(RequestEnd::Ended),
            Got::Failed => Err(RequestEnd::Failed),
        }
    }
}

// Moves bytes to the front, over the first ones.
fn shift(room: &mut [u8], len: usize, count: usize)
    requires count { count ≤ len }
    requires len { len ≤ length room.old }
    ensures count { length room.new ≡ length room.old }
    ensures moved { take (len - count) room.new ≡ drop count (take len room.old) }
{
    room[..len].rotate_left(count);
}

// One read, into the room behind these bytes.
fn read_behind<D: Door>(door: &mut D, room: &mut [u8], len: usize) -> Got
    requires at_hand { (D.told door.old).last ≡ Some Next.Line }
    requires len { len + 16384 ≤ length room.old }
    ensures count { length room.new ≡ length room.old }
    ensures within { IsWithinRoom result len (length room.old) }
    ensures reads { ReadsBehind room.old room.new len (D.told door.old) (D.told door.new) result }
{
    door.read(&mut room[len..len + READ])
}
