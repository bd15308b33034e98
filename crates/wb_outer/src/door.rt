ghost use Rattle.std.specs.Prelude.{◌≡◌, ◌<◌, Some, length};
ghost use Rattle.wb_outer.specs.Door.{DoorTold, Comes, Reads, Writes};
ghost use Rattle.wb_outer.specs.declared.door.Next.{Next};

use crate::sink::Wrote;

/// What a call for the next connection answers.
#[derive(Clone, Copy, Debug, PartialEq, Eq)]
pub enum Next {
    /// A connection was taken and is at hand.
    Line,
    /// There is none to come.
    Closed,
    Failed,
}

/// What a read answers.
#[derive(Clone, Copy, Debug, PartialEq, Eq)]
pub enum Got {
    /// So many bytes, at least one, stand at the front of the room.
    Bytes(usize),
    /// The connection is at its end.
    End,
    Failed,
}

/// Connections, one after another. One is at hand while the last call for the next one answered `Line`.
/// A door tells what was read and written on each.
pub trait Door {
    ghost told: { Self → DoorTold };

    /// Closes the connection at hand and takes the next.
    fn next(&mut self) -> Next
        ensures { Comes (told self.old) (told self.new) result };

    /// The next bytes of the connection at hand, into the front of the room.
    fn read(&mut self, room: &mut [u8]) -> Got
        requires at_hand { (told self.old).last ≡ Some Next.Line }
        requires has_room { 0 < length room.old }
        ensures { Reads (told self.old) (told self.new) room.new result };

    /// Appends the whole piece to what was written on the connection at hand. After a failure a front was appended.
    fn write(&mut self, piece: &[u8]) -> Wrote
        requires { (told self.old).last ≡ Some Next.Line }
        ensures { Writes (told self.old) (told self.new) piece.now result };
}
