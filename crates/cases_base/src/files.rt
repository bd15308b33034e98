//! Files that are interrupted, fail, and give little at a time; and one of the system.
ghost use Rattle.std.specs.Prelude.{◌<◌, length};
ghost use Rattle.wb_outer.specs.Files.{FitsPart};

use crate::shelves::push_taken;
use crate::shown::{as_text, line, spelled};
use std::alloc::AllocError;
use std::io;
use std::io::{ErrorKind, Read};
use wb_outer::{FileShelf, Files, FilesTold, Part, Shelf, read_part};

/// Each path names its file's text, and how its reads go: `i` is an interruption, `f` a failure, and another character
/// itself. A path that begins with `-` names none.
#[derive(Drop)]
struct Named {
    left: Vec<u8>,
    told: FilesTold,
}

fn no_file_yet(rt: &HostRuntime) -> Named {
    Named {
        left: Vec::new(rt.alloc()),
        told: FilesTold::new(),
    }
}

// The first character that is left decides.
fn part(left: &mut Vec<u8>, room: &mut [u8]) -> Part
    requires { 0 < length room.old }
    ensures { FitsPart result room.new }
{
    if left.is_empty() {
        return Part::End;
    }
    match left.remove(0) {
        b'i' => Part::Interrupted,
        b'f' => Part::Failed,
        byte => {
            room[0] = byte;
            Part::Bytes(1)
        }
    }
}

impl Files for Named {
    ghost told = { λ f. f.told };

    fn open(&mut self, path: &str) -> bool {
        self.left.clear();
        let is_open = !path.starts_with('-')
            && self.left.extend_from_slice(path.as_bytes()).is_ok();
        self.told.note_open(path, is_open);
        is_open
    }

    fn read(&mut self, room: &mut [u8]) -> Part {
        let part = part(&mut self.left, room);
        self.told.note_read(part, room);
        part
    }

    fn close(&mut self) {}
}

const NAMES: [&str; 5] = ["text", "-", "", "iteixt", "tef"];

pub fn push(rt: &HostRuntime, shown: &mut String, name: &[u8]) -> Result<(), AllocError> {
    let mut shelf = FileShelf::over(no_file_yet(rt));
    push_taken(rt.alloc(), shown, &mut shelf, &NAMES)?;
    push_system(rt, shown, name)?;
    push_parts(shown)
}

fn push_system(rt: &HostRuntime, shown: &mut String, name: &[u8]) -> Result<(), AllocError> {
    let mut shelf = FileShelf::new(rt);
    let kept = shelf.take(rt.alloc(), name)?;
    line(shown, "kept", spelled(&kept))?;
    push_taken(rt.alloc(), shown, &mut shelf, &["no_such_file.txt", "."])?;
    let no_text = shelf.take(rt.alloc(), &[255])?;
    line(shown, "no text", spelled(&no_text))
}

// Refuses each read so.
#[derive(Drop)]
struct Refusing {
    kind: ErrorKind,
}

impl Read for Refusing {
    fn read(&mut self, _room: &mut [u8]) -> io::Result<usize> {
        Err(io::Error::from(self.kind))
    }
}

fn part_word(part: Part) -> &'static str {
    match part {
        Part::Bytes(_) => "bytes",
        Part::End => "end",
        Part::Interrupted => "interrupted",
        Part::Failed => "failed",
    }
}

fn push_parts(shown: &mut String) -> Result<(), AllocError> {
    let mut room = [0u8; 2];
    for (case, kind) in [
        ("interrupted read", ErrorKind::Interrupted),
        ("refused read", ErrorKind::Other),
    ] {
        let part = read_part(&mut Refusing { kind }, &mut room);
        line(shown, case, part_word(part))?;
    }
    let mut from = b"ab".as_slice();
    let part = read_part(&mut from, &mut room);
    line(shown, as_text(&room), part_word(part))?;
    line(
        shown,
        "at the end",
        part_word(read_part(&mut from, &mut room)),
    )
}
