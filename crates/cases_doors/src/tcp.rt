//! A door over TCP, with peers in this very program.
ghost use Rattle.std.specs.Prelude.{◌≡◌, Some};

use crate::shown::{next_word, wrote_word};
use cases_rows::{as_text, heading, line};
use std::alloc::{AllocError, Global};
use std::io::Write;
use std::net::{Shutdown, TcpStream};
use std::time::Duration;
use std::{io, thread};
use wb_doors::{SystemSockets, TcpDoor};
use wb_outer::{Door, Got, Next, Wrote};

const ADDRESS: &str = "127.0.0.1:7878";

/// A peer that sends a text and nothing more.
fn peer(rt: &HostRuntime, text: &str) -> io::Result<TcpStream> {
    let mut peer = TcpStream::connect(rt, ADDRESS)?;
    peer.write_all(text.as_bytes())?;
    peer.shutdown(Shutdown::Write)?;
    Ok(peer)
}

/// A door that listens. It waits half a minute at most for another program to leave the port.
fn listening(rt: &HostRuntime) -> Option<TcpDoor<SystemSockets>> {
    let mut door = TcpDoor::new(rt);
    for _ in 0..300u16 {
        if door.listen() == Wrote::Done {
            return Some(door);
        }
        thread::sleep(rt, Duration::from_millis(100));
    }
    None
}

/// All that is left of the connection at hand, and whether its end came. The connection stays at hand.
fn read_all<D: Door>(alloc: Global, shown: &mut String, door: &mut D) -> Result<(), AllocError>
    requires { (D.told door.old).last ≡ Some Next.Line }
    ensures { (D.told door.new).last ≡ Some Next.Line }
{
    let mut bytes = Vec::new(alloc);
    let mut room = [0u8; 2];
    for _ in 0..100u8 {
        match door.read(&mut room) {
            Got::Bytes(count) => bytes.extend_from_slice(&room[..count])?,
            Got::End => {
                line(shown, "read", as_text(bytes.as_slice()))?;
                return line(shown, "read", "end");
            }
            Got::Failed => return line(shown, "read", "failed"),
        }
    }
    line(shown, "read", "too much")
}

/// Takes the next peer, reads all that it sends, and answers it.
fn push_peer<D: Door>(
    alloc: Global,
    shown: &mut String,
    door: &mut D,
    answer: &str,
) -> Result<(), AllocError> {
    let next = door.next();
    line(shown, "next", next_word(next))?;
    if next != Next::Line {
        return Ok(());
    }
    read_all(alloc, shown, door)?;
    let wrote = door.write(answer.as_bytes());
    line(shown, "write", wrote_word(wrote))
}

/// All that a peer was sent.
fn push_answer(alloc: Global, shown: &mut String, peer: TcpStream) -> Result<(), AllocError> {
    match io::read_to_string(alloc, peer) {
        Ok(answer) => line(shown, "peer", answer.as_str()),
        Err(_) => line(shown, "peer", "failed"),
    }
}

fn push_peers(
    rt: &HostRuntime,
    shown: &mut String,
    door: &mut TcpDoor<SystemSockets>,
) -> Result<(), AllocError> {
    let (Ok(first), Ok(second)) = (peer(rt, "hello"), peer(rt, "")) else {
        return line(shown, "peers", "failed");
    };
    push_peer(rt.alloc(), shown, door, "welcome")?;
    push_peer(rt.alloc(), shown, door, "")?;
    push_answer(rt.alloc(), shown, first)?;
    drop(second);
    Ok(())
}

/// A port is listened at by one door.
fn push_second(rt: &HostRuntime, shown: &mut String) -> Result<(), AllocError> {
    let mut second = TcpDoor::new(rt);
    line(shown, "second door", wrote_word(second.listen()))?;
    line(shown, "second door", next_word(second.next()))
}

pub fn push(rt: &HostRuntime, shown: &mut String) -> Result<(), AllocError> {
    heading(shown, "a door over TCP")?;
    match listening(rt) {
        Some(mut door) => {
            line(shown, "listen", "done")?;
            push_second(rt, shown)?;
            push_peers(rt, shown, &mut door)
        }
        None => line(shown, "listen", "failed"),
    }
}
