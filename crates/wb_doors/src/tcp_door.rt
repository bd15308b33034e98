ghost use Rattle.std.specs.Prelude.{◌≡◌, ◌<◌, ◌≤◌, [], None, Some, false, length};
ghost use Rattle.wb_outer.specs.Door.{Comes, Reads, Writes, FitsRoom};
ghost use Rattle.wb_outer.specs.Faults.{Rose, counted};
ghost use Rattle.wb_outer.specs.Sink.{has_failed};
ghost use Rattle.wb_outer.specs.declared.door.Next.{Next};
ghost use Rattle.wb_doors.specs.MemoryDoors.{next_failed, read_failed};
ghost use Rattle.wb_doors.specs.Sockets.{no_call_told};
ghost use Rattle.wb_doors.specs.TcpDoors.{IsSameDoor, Listens, Accepts, ReadsThrough, WritesThrough, tcp_told};

use crate::sockets::{Came, Sockets};
use crate::system_sockets::SystemSockets;
use crate::visits::Visits;
use std::marker::Model;
use wb_faults::raise;
use wb_outer::{Door, Got, Next, Part, Put, Wrote};

/// A door over sockets. What is to come it does not tell.
pub struct TcpDoor<S> {
    sockets: S,
    is_listening: bool,
    last: Option<Next>,
    taken: Visits,
    faults: u64,
}

impl<S: Drop> Drop for TcpDoor<S> {
    fn drop(self) {
        let TcpDoor {
            sockets: _sockets,
            is_listening: _,
            last: _,
            taken: _taken,
            faults: _,
        } = self;
    }
}

impl<S> Model for TcpDoor<S> {
    ghost use Rattle.wb_doors.specs.TcpDoors.{TcpDoorState};

    ghost Value = { TcpDoorState S };

    ghost view = { λ d. record { sockets = d.sockets; is_listening = d.is_listening; last = d.last; taken = d.taken; faults = d.faults } };
}

impl TcpDoor<SystemSockets> {
    /// A door on 127.0.0.1 port 7878.
    pub fn new(rt: &HostRuntime) -> TcpDoor<SystemSockets>
        ensures told { tcp_told result ≡ record { last = None; taken = []; to_come = None; faults = 0 } }
        ensures listening { result.is_listening ≡ false }
        ensures sockets { ⟦<SystemSockets as Sockets>⟧.told result.sockets ≡ no_call_told }
    {
        TcpDoor::over(SystemSockets::new(rt))
    }
}

/// Takes the next peer, in as many calls as it takes.
pub fn accept_one<S: Sockets>(sockets: &mut S) -> Next
    ensures { Accepts (S.told sockets.old) (S.told sockets.new) result }
{
    'calls: for _round in 0..u64::MAX {
        match sockets.accept() {
            Came::Peer => return Next::Line,
            Came::Interrupted => {}
            Came::Failed => return Next::Failed,
        }
    }
    Next::Failed
}

/// Reads the next bytes, in as many calls as it takes.
pub fn read_some<S: Sockets>(sockets: &mut S, room: &mut [u8]) -> Got
    requires { 0 < length room.old }
    ensures fits { FitsRoom result room.new }
    ensures read { ReadsThrough (S.told sockets.old) (S.told sockets.new) room.new result }
{
    'calls: for _round in 0..u64::MAX {
        match sockets.read(room) {
            Part::Bytes(count) => return Got::Bytes(count),
            Part::End => return Got::End,
            Part::Interrupted => {}
            Part::Failed => return Got::Failed,
        }
    }
    Got::Failed
}

/// Writes the whole piece, in as many calls as it takes, and notes what was written. After a failure a front of it was
/// written, and the connection is marked.
pub fn write_whole<S: Sockets>(sockets: &mut S, taken: &mut Visits, piece: &[u8]) -> Wrote
    ensures { WritesThrough (S.told sockets.old) (S.told sockets.new) taken.old taken.new piece.now result }
{
    let mut written = 0;
    'calls: for _round in 0..u64::MAX {
        if written >= piece.len() {
            return Wrote::Done;
        }
        match sockets.put(&piece[written..]) {
            Put::Took(count) => {
                taken.write(&piece[written..written + count]);
                written += count;
            }
            Put::Interrupted => {}
            Put::Failed => {
                taken.mark();
                return Wrote::Failed;
            }
        }
    }
    taken.mark();
    Wrote::Failed
}

impl<S: Sockets> TcpDoor<S> {
    /// A door over these sockets.
    pub fn over(sockets: S) -> TcpDoor<S>
        ensures { result ≡ record { sockets = sockets; is_listening = false; last = None; taken = []; faults = 0 } }
    {
        TcpDoor {
            sockets,
            is_listening: false,
            last: None,
            taken: Visits::new(),
            faults: 0,
        }
    }

    /// Listens, where the door does not listen yet.
    pub fn listen(&mut self) -> Wrote
        ensures same { IsSameDoor self.old self.new }
        ensures listens { Listens self.old.is_listening (S.told self.old.sockets) self.new.is_listening (S.told self.new.sockets) result }
        ensures counted { self.new.faults ≡ counted (has_failed result) self.old.faults }
        ensures later { self.old.faults ≤ self.new.faults }
    {
        if self.is_listening {
            return Wrote::Done;
        }
        self.is_listening = self.sockets.listen();
        if self.is_listening {
            return Wrote::Done;
        }
        self.faults = raise(self.faults);
        Wrote::Failed
    }

    // The next peer, at a door that listens.
    fn accept(&mut self) -> Next
        ensures same { IsSameDoor self.old self.new }
        ensures accepts { Accepts (S.told self.old.sockets) (S.told self.new.sockets) result }
        ensures counted { self.new.faults ≡ counted (next_failed result) self.old.faults }
        ensures later { self.old.faults ≤ self.new.faults }
    {
        let next = accept_one(&mut self.sockets);
        if next == Next::Failed {
            self.faults = raise(self.faults);
        }
        next
    }

    // Listens, where the door does not yet, and takes the next peer.
    fn take_peer(&mut self) -> Next
        ensures same { IsSameDoor self.old self.new }
        ensures through { Accepts (S.told self.old.sockets) (S.told self.new.sockets) result }
        ensures counted { self.new.faults ≡ counted (next_failed result) self.old.faults }
        ensures later { self.old.faults ≤ self.new.faults }
    {
        match self.listen() {
            Wrote::Done => self.accept(),
            Wrote::Failed => Next::Failed,
        }
    }
}

impl<S: Sockets> Door for TcpDoor<S> {
    ghost told = { tcp_told };

    fn next(&mut self) -> Next
        ensures comes { Comes (tcp_told self.old) (tcp_told self.new) result }
        ensures through { Accepts (S.told self.old.sockets) (S.told self.new.sockets) result }
        ensures counted { self.new.faults ≡ counted (next_failed result) self.old.faults }
    {
        let next = self.take_peer();
        self.taken.came(next);
        self.last = Some(next);
        next
    }

    fn read(&mut self, room: &mut [u8]) -> Got
        requires at_hand { self.old.last ≡ Some Next.Line }
        requires has_room { 0 < length room.old }
        ensures reads { Reads (tcp_told self.old) (tcp_told self.new) room.new result }
        ensures through { ReadsThrough (S.told self.old.sockets) (S.told self.new.sockets) room.new result }
        ensures counted { self.new.faults ≡ counted (read_failed result) self.old.faults }
    {
        let got = read_some(&mut self.sockets, room);
        match got {
            Got::Bytes(count) => self.taken.read(&room[..count]),
            Got::End => {}
            Got::Failed => {
                self.taken.mark();
                self.faults = raise(self.faults);
            }
        }
        got
    }

    fn write(&mut self, piece: &[u8]) -> Wrote
        requires { self.old.last ≡ Some Next.Line }
        ensures writes { Writes (tcp_told self.old) (tcp_told self.new) piece.now result }
        ensures through { WritesThrough (S.told self.old.sockets) (S.told self.new.sockets) self.old.taken self.new.taken piece.now result }
        ensures counted { self.new.faults ≡ counted (has_failed result) self.old.faults }
    {
        let wrote = write_whole(&mut self.sockets, &mut self.taken, piece);
        if wrote == Wrote::Failed {
            self.faults = raise(self.faults);
        }
        wrote
    }
}
