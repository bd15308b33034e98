ghost use Rattle.std.specs.Prelude.{◌≡◌, ◌<◌, [], None, Some, length, take, min};
ghost use Rattle.wb_outer.specs.Door.{Comes, Reads, Writes, FitsRoom, change_at_hand, after_write};
ghost use Rattle.wb_outer.specs.Pieces.{HasUnread, SureComes, ReadsPiece, left_of, lines_of, sure_told};
ghost use Rattle.wb_outer.specs.declared.door.Next.{Next};

use crate::bytes::Bytes;
use crate::door::{Door, Got, Next};
use crate::sink::Wrote;
use crate::visits::Visits;
use std::alloc::Global;
use std::marker::Model;

/// Connections whose bytes stand in memory. No call fails, and what is written is dropped.
pub struct SureDoor {
    waiting: Vec<Vec<Bytes>>,
    // the pieces of the connection at hand, and how many bytes of the first one were read
    pieces: Vec<Bytes>,
    read: usize,
    last: Option<Next>,
    taken: Visits,
}

impl Drop for SureDoor {
    fn drop(self) {
        let SureDoor {
            waiting: _waiting,
            pieces: _pieces,
            read: _,
            last: _,
            taken: _taken,
        } = self;
    }
}

impl Model for SureDoor {
    ghost use Rattle.wb_outer.specs.Pieces.{SureDoorState, left_of, lines_of};

    ghost Value = { SureDoorState };

    ghost view = { λ d. record { last = d.last; taken = d.taken; left = left_of d.read d.pieces.items; waiting = lines_of d.waiting.items } };
}

impl SureDoor {
    /// A door of these connections, each the list of pieces that reads give.
    pub fn new(alloc: Global, lines: Vec<Vec<Bytes>>) -> SureDoor
        ensures { result ≡ record { last = None; taken = []; left = []; waiting = lines_of lines.items } }
    {
        SureDoor {
            waiting: lines,
            pieces: Vec::new(alloc),
            read: 0,
            last: None,
            taken: Visits::new(),
        }
    }
}

// Passes over the pieces that were read to their end.
fn skip_read(pieces: &mut Vec<Bytes>, read: &mut usize)
    ensures same { left_of read.new pieces.new.items ≡ left_of read.old pieces.old.items }
    ensures left { HasUnread read.new pieces.new.items }
{
    while !pieces.is_empty() && pieces[0].as_slice().len() <= *read {
        let _ = pieces.remove(0);
        *read = 0;
    }
}

// Copies as many bytes as there is room for, and says how many.
fn copy_front(bytes: &[u8], room: &mut [u8]) -> usize
    ensures count { result ≡ min (length bytes.now) (length room.old) }
    ensures copied { take result room.new ≡ take result bytes.now }
{
    let count = bytes.len().min(room.len());
    room[..count].copy_from_slice(&bytes[..count]);
    count
}

// What is left of a piece, or as much of it as there is room for, into the front of the room.
fn read_pieces(pieces: &mut Vec<Bytes>, read: &mut usize, room: &mut [u8]) -> Got
    requires { 0 < length room.old }
    ensures fits { FitsRoom result room.new }
    ensures read { ReadsPiece (left_of read.old pieces.old.items) (left_of read.new pieces.new.items) room.new result }
{
    skip_read(pieces, read);
    if pieces.is_empty() {
        return Got::End;
    }
    let count = copy_front(&pieces[0].as_slice()[*read..], room);
    *read += count;
    Got::Bytes(count)
}

impl Door for SureDoor {
    ghost told = { sure_told };

    fn next(&mut self) -> Next
        ensures comes { Comes (sure_told self.old) (sure_told self.new) result }
        ensures exact { SureComes self.old self.new result }
    {
        self.read = 0;
        if self.waiting.is_empty() {
            self.pieces.clear();
            self.last = Some(Next::Closed);
            return Next::Closed;
        }
        self.pieces = self.waiting.remove(0);
        self.taken.add();
        self.last = Some(Next::Line);
        Next::Line
    }

    fn read(&mut self, room: &mut [u8]) -> Got
        requires at_hand { self.old.last ≡ Some Next.Line }
        requires has_room { 0 < length room.old }
        ensures reads { Reads (sure_told self.old) (sure_told self.new) room.new result }
        ensures exact { ReadsPiece self.old.left self.new.left room.new result }
    {
        let got = read_pieces(&mut self.pieces, &mut self.read, room);
        if let Got::Bytes(count) = got {
            self.taken.read(&room[..count]);
        }
        got
    }

    fn write(&mut self, piece: &[u8]) -> Wrote
        requires { self.old.last ≡ Some Next.Line }
        ensures writes { Writes (sure_told self.old) (sure_told self.new) piece.now result }
        ensures done { result ≡ Wrote.Done }
        ensures after { self.new ≡ record { last = self.old.last; taken = change_at_hand (after_write piece.now) self.old.taken; left = self.old.left; waiting = self.old.waiting } }
    {
        self.taken.write(piece);
        Wrote::Done
    }
}
