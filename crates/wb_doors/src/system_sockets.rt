ghost use Rattle.std.specs.Prelude.{◌≡◌, ◌<◌, length};
ghost use Rattle.wb_outer.specs.Files.{FitsPart};
ghost use Rattle.wb_outer.specs.Output.{IsPart};
ghost use Rattle.wb_doors.specs.Sockets.{no_call_told};

use crate::sockets::{Came, Sockets, SocketsTold};
use std::io::ErrorKind;
use std::net::{TcpListener, TcpStream};
use wb_outer::{Part, Put, put_part, read_part};

// Where the door listens.
const ADDRESS: &str = "127.0.0.1:7878";

/// The sockets of the system, on 127.0.0.1 port 7878.
pub struct SystemSockets {
    rt: HostRuntime,
    listener: Option<TcpListener>,
    line: Option<TcpStream>,
    told: SocketsTold,
}

impl Drop for SystemSockets {
    fn drop(self) {
        let SystemSockets {
            rt: _,
            listener: _listener,
            line: _line,
            told: _told,
        } = self;
    }
}

impl SystemSockets {
    /// Nothing listens yet.
    pub fn new(rt: &HostRuntime) -> SystemSockets
        ensures { ⟦<SystemSockets as Sockets>⟧.told result ≡ no_call_told }
    {
        SystemSockets {
            rt: *rt,
            listener: None,
            line: None,
            told: SocketsTold::new(),
        }
    }
}

// A call where nothing listens fails. An interrupted one is told apart.
fn accept_at(listener: &Option<TcpListener>, line: &mut Option<TcpStream>) -> Came {
    let Some(listener) = listener else {
        return Came::Failed;
    };
    match listener.accept() {
        Ok((stream, _)) => {
            *line = Some(stream);
            Came::Peer
        }
        Err(error) if error.kind() == ErrorKind::Interrupted => Came::Interrupted,
        Err(_) => Came::Failed,
    }
}

// A read where no connection is open fails.
fn read_line(line: &mut Option<TcpStream>, room: &mut [u8]) -> Part
    requires { 0 < length room.old }
    ensures { FitsPart result room.new }
{
    match line {
        Some(stream) => read_part(stream, room),
        None => Part::Failed,
    }
}

// A write where no connection is open fails.
fn put_line(line: &mut Option<TcpStream>, bytes: &[u8]) -> Put
    ensures { IsPart result bytes.now }
{
    match line {
        Some(stream) => put_part(stream, bytes),
        None => Put::Failed,
    }
}

impl Sockets for SystemSockets {
    ghost told = { λ s. s.told };

    fn listen(&mut self) -> bool {
        self.listener = TcpListener::bind(&self.rt, ADDRESS).ok();
        let is_listening = self.listener.is_some();
        self.told.note_listen(is_listening);
        is_listening
    }

    fn accept(&mut self) -> Came {
        self.line = None;
        let came = accept_at(&self.listener, &mut self.line);
        self.told.note_accept(came);
        came
    }

    fn read(&mut self, room: &mut [u8]) -> Part {
        let part = read_line(&mut self.line, room);
        self.told.note_read(part, room);
        part
    }

    fn put(&mut self, bytes: &[u8]) -> Put {
        let put = put_line(&mut self.line, bytes);
        self.told.note_put(put, bytes);
        put
    }
}
