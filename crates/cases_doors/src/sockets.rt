//! A door over sockets that are interrupted, fail, and give and take little at a time.
ghost use Rattle.std.specs.Prelude.{◌<◌, ◌≤◌, length};
ghost use Rattle.wb_outer.specs.Files.{FitsPart};
ghost use Rattle.wb_outer.specs.Output.{IsPart};

use crate::scripts::Step::{Read, Write};
use crate::scripts::push_next;
use crate::shown::wrote_word;
use cases_rows::{heading, line};
use std::alloc::{AllocError, Global};
use wb_doors::{Came, Sockets, SocketsTold, TcpDoor};
use wb_outer::{Part, Put};

/// Each call takes the first character that is left of a script: `i` is an interruption, `f` a failure, `.` the end of a
/// connection, and a digit so many bytes, of which those that are given are `a`. At the end of the script each call fails.
#[derive(Drop)]
struct Scripted {
    left: Vec<u8>,
    told: SocketsTold,
}

fn by_script(alloc: Global, script: &str) -> Result<Scripted, AllocError> {
    Ok(Scripted {
        left: Vec::from_slice(alloc, script.as_bytes())?,
        told: SocketsTold::new(),
    })
}

// The first character that is left.
fn step(left: &mut Vec<u8>) -> u8 {
    if left.is_empty() {
        b'f'
    } else {
        left.remove(0)
    }
}

// How many bytes a digit stands for, one at least and no more than so many.
fn count_of(digit: u8, most: usize) -> usize
    requires { 0 < most }
    ensures some { 0 < result }
    ensures within { result ≤ most }
{
    usize::from(digit.saturating_sub(b'0')).max(1).min(most)
}

fn part(left: &mut Vec<u8>, room: &mut [u8]) -> Part
    requires { 0 < length room.old }
    ensures { FitsPart result room.new }
{
    match step(left) {
        b'i' => Part::Interrupted,
        b'f' => Part::Failed,
        b'.' => Part::End,
        digit => {
            let count = count_of(digit, room.len());
            room[..count].fill(b'a');
            Part::Bytes(count)
        }
    }
}

fn put(left: &mut Vec<u8>, bytes: &[u8]) -> Put
    requires { 0 < length bytes.now }
    ensures { IsPart result bytes.now }
{
    match step(left) {
        b'i' => Put::Interrupted,
        b'f' => Put::Failed,
        digit => Put::Took(count_of(digit, bytes.len())),
    }
}

impl Sockets for Scripted {
    ghost told = { λ s. s.told };

    fn listen(&mut self) -> bool {
        let is_listening = step(&mut self.left) != b'f';
        self.told.note_listen(is_listening);
        is_listening
    }

    fn accept(&mut self) -> Came {
        let came = match step(&mut self.left) {
            b'i' => Came::Interrupted,
            b'f' => Came::Failed,
            _ => Came::Peer,
        };
        self.told.note_accept(came);
        came
    }

    fn read(&mut self, room: &mut [u8]) -> Part {
        let part = part(&mut self.left, room);
        self.told.note_read(part, room);
        part
    }

    fn put(&mut self, bytes: &[u8]) -> Put {
        let put = put(&mut self.left, bytes);
        self.told.note_put(put, bytes);
        put
    }
}

pub fn push(alloc: Global, shown: &mut String) -> Result<(), AllocError> {
    push_listening(alloc, shown)?;
    push_lines(alloc, shown)
}

/// The first bind is refused; of the others the first is made, and no more.
fn push_listening(alloc: Global, shown: &mut String) -> Result<(), AllocError> {
    heading(shown, "sockets that refuse to listen")?;
    let mut door = TcpDoor::over(by_script(alloc, "f1fi1")?);
    for _ in 0..3u8 {
        line(shown, "listen", wrote_word(door.listen()))?;
    }
    push_next(shown, &mut door, &[])?;
    push_next(shown, &mut door, &[])
}

/// The door listens at its first call for the next connection.
fn push_lines(alloc: Global, shown: &mut String) -> Result<(), AllocError> {
    heading(shown, "sockets that are interrupted and fail")?;
    let mut door = TcpDoor::over(by_script(alloc, "f1fii1i21fi.1i211f")?);
    push_next(shown, &mut door, &[])?;
    push_next(shown, &mut door, &[])?;
    push_next(
        shown,
        &mut door,
        &[
            Read,
            Read,
            Read,
            Read,
            Write("four"),
            Write(""),
            Write("on"),
        ],
    )?;
    push_next(shown, &mut door, &[])
}
