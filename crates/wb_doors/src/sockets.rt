ghost use Rattle.std.specs.Prelude.{◌≡◌, ◌<◌, length};
ghost use Rattle.wb_outer.specs.Files.{FitsPart};
ghost use Rattle.wb_outer.specs.Output.{IsPart};
ghost use Rattle.wb_doors.specs.Sockets.{no_call_told, after_listen, after_accept, after_read, after_put};

use wb_outer::{Log, Part, Put, Steps};

/// What a call for the next peer answers.
#[derive(Clone, Copy, Debug, PartialEq, Eq)]
pub enum Came {
    /// A peer has connected.
    Peer,
    /// A signal came first. Nobody was taken, and the next call may take one.
    Interrupted,
    Failed,
}

// Labels of counts.
#[derive(Drop)]
pub struct Peers;

#[derive(Drop)]
pub struct Ends;

#[derive(Drop)]
pub struct Calls;

#[derive(Drop)]
pub struct Failures;

/// What sockets tell, as contracts see it.
#[derive(Drop)]
pub struct SocketsTold {
    /// How many peers were taken.
    pub peers: Steps<Peers>,
    /// All bytes that they gave.
    pub given: Log<u8>,
    /// All bytes that they took.
    pub took: Log<u8>,
    /// How many reads answered that a connection is at its end.
    pub ends: Steps<Ends>,
    pub calls: Steps<Calls>,
    /// How many of the calls failed.
    pub failures: Steps<Failures>,
}

impl SocketsTold {
    /// No call was made yet.
    pub fn new() -> SocketsTold
        ensures { result ≡ no_call_told }
    {
        SocketsTold {
            peers: Steps::new(),
            given: Log::new(),
            took: Log::new(),
            ends: Steps::new(),
            calls: Steps::new(),
            failures: Steps::new(),
        }
    }

    /// A call that was to listen could, or not.
    pub fn note_listen(&mut self, is_listening: bool)
        ensures { self.new ≡ after_listen is_listening self.old }
    {
        self.calls.tick();
        if !is_listening {
            self.failures.tick();
        }
    }

    /// A call for the next peer answered so.
    pub fn note_accept(&mut self, came: Came)
        ensures { self.new ≡ after_accept came self.old }
    {
        self.calls.tick();
        match came {
            Came::Peer => self.peers.tick(),
            Came::Interrupted => {}
            Came::Failed => self.failures.tick(),
        }
    }

    /// A read answered so.
    pub fn note_read(&mut self, part: Part, room: &[u8])
        requires { FitsPart part room.now }
        ensures { self.new ≡ after_read part room.now self.old }
    {
        self.calls.tick();
        match part {
            Part::Bytes(count) => self.given.note_all(&room[..count]),
            Part::End => self.ends.tick(),
            Part::Interrupted => {}
            Part::Failed => self.failures.tick(),
        }
    }

    /// A write of these bytes answered so.
    pub fn note_put(&mut self, put: Put, bytes: &[u8])
        requires { IsPart put bytes.now }
        ensures { self.new ≡ after_put put bytes.now self.old }
    {
        self.calls.tick();
        match put {
            Put::Took(count) => self.took.note_all(&bytes[..count]),
            Put::Interrupted => {}
            Put::Failed => self.failures.tick(),
        }
    }
}

/// Sockets that listen and take peers, one at a time. They tell what each call was given and answered, so that contracts
/// above tie what a door gives and takes to it.
pub trait Sockets {
    ghost use Rattle.wb_doors.specs.declared.sockets.SocketsTold.{SocketsTold};

    ghost told: { Self → SocketsTold };

    /// Begins to listen. Says whether it could.
    fn listen(&mut self) -> bool
        ensures { told self.new ≡ after_listen result (told self.old) };

    /// Closes the connection at hand, and waits for the next peer.
    fn accept(&mut self) -> Came
        ensures { told self.new ≡ after_accept result (told self.old) };

    /// The next bytes of the connection at hand, into the front of the room.
    fn read(&mut self, room: &mut [u8]) -> Part
        requires { 0 < length room.old }
        ensures fits { FitsPart result room.new }
        ensures told { told self.new ≡ after_read result room.new (told self.old) };

    /// Sends some of these bytes, from the front, on the connection at hand.
    fn put(&mut self, bytes: &[u8]) -> Put
        requires { 0 < length bytes.now }
        ensures part { IsPart result bytes.now }
        ensures told { told self.new ≡ after_put result bytes.now (told self.old) };
}
