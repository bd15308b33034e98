ghost use Rattle.std.specs.Prelude.{◌≡◌, ◌<◌, [], length, take, min};
ghost use Rattle.wb_outer.specs.Door.{FitsRoom};
ghost use Rattle.wb_outer.specs.Pieces.{HasUnread, ReadsPiece, left_of, lines_of};
ghost use Rattle.wb_doors.specs.Coming.{TakesFirst};

use std::alloc::Global;
use std::marker::Model;
use wb_outer::{Bytes, Got};

/// What is to come at a door in memory: what is left of the connection at hand, and those that wait.
pub struct Coming {
    waiting: Vec<Vec<Bytes>>,
    // the pieces of the connection at hand, and how many bytes of the first one were read
    pieces: Vec<Bytes>,
    read: usize,
}

impl Drop for Coming {
    fn drop(self) {
        let Coming {
            waiting: _waiting,
            pieces: _pieces,
            read: _,
        } = self;
    }
}

impl Model for Coming {
    ghost use Rattle.wb_outer.specs.Pieces.{left_of, lines_of};
    ghost use Rattle.wb_doors.specs.Coming.{ComingState};

    ghost Value = { ComingState };

    ghost view = { λ c. record { left = left_of c.read c.pieces.items; waiting = lines_of c.waiting.items } };
}

// Passes over the pieces that were read to their end.
fn skip_read(pieces: &mut Vec<Bytes>, read: &mut usize)
    ensures same { left_of read.new pieces.new.items ≡ left_of read.old pieces.old.items }
    ensures left { HasUnread read.new pieces.new.items }
{
    while !pieces.is_empty() && pieces[0].as_slice().len() <= *read {
        let _ = pieces.remove(0);
        *read = 0;
    }
}

// Copies as many bytes as there is room for, and says how many.
fn copy_front(bytes: &[u8], room: &mut [u8]) -> usize
    ensures count { result ≡ min (length bytes.now) (length room.old) }
    ensures copied { take result room.new ≡ take result bytes.now }
{
    let count = bytes.len().min(room.len());
    room[..count].copy_from_slice(&bytes[..count]);
    count
}

// What is left of a piece, or as much of it as there is room for, into the front of the room.
fn read_pieces(pieces: &mut Vec<Bytes>, read: &mut usize, room: &mut [u8]) -> Got
    requires { 0 < length room.old }
    ensures fits { FitsRoom result room.new }
    ensures read { ReadsPiece (left_of read.old pieces.old.items) (left_of read.new pieces.new.items) room.new result }
{
    skip_read(pieces, read);
    if pieces.is_empty() {
        return Got::End;
    }
    let count = copy_front(&pieces[0].as_slice()[*read..], room);
    *read += count;
    Got::Bytes(count)
}

impl Coming {
    /// These connections, each the list of pieces that reads give. None is at hand.
    pub fn new(alloc: Global, lines: Vec<Vec<Bytes>>) -> Coming
        ensures { result ≡ record { left = []; waiting = lines_of lines.items } }
    {
        Coming {
            waiting: lines,
            pieces: Vec::new(alloc),
            read: 0,
        }
    }

    /// The first connection that waits comes to hand. Says whether there was one.
    pub fn next(&mut self) -> bool
        ensures { TakesFirst self.old self.new result }
    {
        self.read = 0;
        if self.waiting.is_empty() {
            self.pieces.clear();
            return false;
        }
        self.pieces = self.waiting.remove(0);
        true
    }

    /// What is left of a piece of the connection at hand, or as much of it as there is room for.
    pub fn read(&mut self, room: &mut [u8]) -> Got
        requires { 0 < length room.old }
        ensures fits { FitsRoom result room.new }
        ensures read { ReadsPiece self.old.left self.new.left room.new result }
        ensures waiting { self.new.waiting ≡ self.old.waiting }
    {
        read_pieces(&mut self.pieces, &mut self.read, room)
    }
}
