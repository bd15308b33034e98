//! Outputs that are interrupted, fail, and take little at a time.
ghost use Rattle.std.specs.Prelude.{◌<◌, length};
ghost use Rattle.wb_outer.specs.Output.{IsPart};

use crate::shown::{line, wrote};
use crate::sinks::push_written;
use std::alloc::{AllocError, Global};
use std::io;
use std::io::{ErrorKind, Write};
use wb_outer::{Output, OutputTold, Put, StdoutSink, put_part, write_whole};

/// Takes so many bytes at a time. The first byte of what is left may be `i`, which interrupts once, or `f`, which fails.
#[derive(Drop)]
struct Narrow {
    width: usize,
    was_interrupted: bool,
    told: OutputTold,
}

fn taking(width: usize) -> Narrow {
    Narrow {
        width,
        was_interrupted: false,
        told: OutputTold::new(),
    }
}

fn put(width: usize, was_interrupted: bool, bytes: &[u8]) -> Put
    requires { 0 < length bytes.now }
    ensures { IsPart result bytes.now }
{
    match bytes[0] {
        b'i' if !was_interrupted => Put::Interrupted,
        b'f' => Put::Failed,
        _ => Put::Took(bytes.len().min(width.max(1))),
    }
}

impl Output for Narrow {
    ghost told = { λ o. o.told };

    fn put(&mut self, bytes: &[u8]) -> Put {
        let put = put(self.width, self.was_interrupted, bytes);
        self.was_interrupted = put == Put::Interrupted;
        self.told.note(put, bytes);
        put
    }
}

pub fn push(alloc: Global, shown: &mut String) -> Result<(), AllocError> {
    let mut sink = StdoutSink::over(taking(2));
    push_written(shown, &mut sink, &["slow", "iv", "", "abf"])?;
    push_large(alloc, shown)?;
    push_puts(alloc, shown)
}

// More than a megabyte, a thousand bytes at a time.
fn push_large(alloc: Global, shown: &mut String) -> Result<(), AllocError> {
    let piece = vec![in alloc; 7u8; 1_048_577]?;
    let answer = write_whole(&mut taking(1000), piece.as_slice());
    line(shown, "above a megabyte", wrote(answer))
}

// Refuses each write so.
#[derive(Drop)]
struct Refusing {
    kind: ErrorKind,
}

impl Write for Refusing {
    fn write(&mut self, _bytes: &[u8]) -> io::Result<usize> {
        Err(io::Error::from(self.kind))
    }

    fn flush(&mut self) -> io::Result<()> {
        Ok(())
    }
}

fn put_word(put: Put) -> &'static str {
    match put {
        Put::Took(_) => "took",
        Put::Interrupted => "interrupted",
        Put::Failed => "failed",
    }
}

fn push_puts(alloc: Global, shown: &mut String) -> Result<(), AllocError> {
    for (case, kind) in [
        ("interrupted write", ErrorKind::Interrupted),
        ("refused write", ErrorKind::Other),
    ] {
        line(
            shown,
            case,
            put_word(put_part(&mut Refusing { kind }, b"a")),
        )?;
    }
    let mut held: Vec<u8> = Vec::new(alloc);
    line(shown, "write", put_word(put_part(&mut held, b"a")))?;
    line(shown, "empty write", put_word(put_part(&mut held, b"")))
}
