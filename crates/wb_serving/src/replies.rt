//! What is written to a request.
ghost use Rattle.std.specs.Prelude.{◌≡◌, None, true};
ghost use Rattle.wb_http.specs.Replies.{response, fixed_text};
ghost use Rattle.wb_http.specs.declared.replies.FixedReply.TheVariants.{Stopped};
ghost use Rattle.wb_serving.specs.Turns.{ending};
ghost use Rattle.wb_serving.specs.Replies.{text_in, closes_with, stops_with};

use crate::ends::End;
use wb_http::{keeper_reply, no_memory_reply};
use wb_outer::Bytes;

/// A reply. Only the first form takes memory.
#[derive(Drop)]
pub(crate) enum Reply {
    /// Its bytes, and whether the connection closes after it.
    Made(Bytes, bool),
    /// There was no memory. Does the connection close?
    NoMemory(bool),
    /// The keeper failed. Does the connection close?
    Unkept(bool),
    /// The program stops.
    Stopped,
}

/// The whole reply to a request to stop, which takes no memory.
pub(crate) fn stopped_reply() -> &'static str
    ensures { result.now ≡ response 200 None true (fixed_text Stopped) }
{
    "HTTP/1.1 200 OK\r\nContent-Type: application/json\r\nContent-Length: 16\r\nConnection: close\r\n\r\n{\"stopped\":true}"
}

// How a connection ends after a reply, if it does.
fn ending(stops: bool, is_last: bool, closes: bool) -> Option<End>
    ensures { result ≡ ending stops is_last closes }
{
    if stops {
        Some(End::Stop)
    } else if is_last {
        Some(End::Spent)
    } else if closes {
        Some(End::Close)
    } else {
        None
    }
}

impl Reply {
    /// Its bytes.
    pub(crate) fn text(&self) -> &[u8]
        ensures { result.now ≡ text_in self.now }
    {
        match self {
            Reply::Made(text, _) => text.as_slice(),
            Reply::NoMemory(closes) => no_memory_reply(*closes).as_bytes(),
            Reply::Unkept(closes) => keeper_reply(*closes).as_bytes(),
            Reply::Stopped => stopped_reply().as_bytes(),
        }
    }

    // Does the connection close after it?
    fn closes(&self) -> bool
        ensures { result ≡ closes_with self.now }
    {
        match self {
            Reply::Made(_, closes) => *closes,
            Reply::NoMemory(closes) => *closes,
            Reply::Unkept(closes) => *closes,
            Reply::Stopped => true,
        }
    }

    // Does the program stop after it?
    fn stops(&self) -> bool
        ensures { result ≡ stops_with self.now }
    {
        match self {
            Reply::Stopped => true,
            _ => false,
        }
    }

    /// How the connection ends after it, if it does.
    pub(crate) fn end(&self, is_last: bool) -> Option<End>
        ensures { result ≡ ending (stops_with self.now) is_last (closes_with self.now) }
    {
        ending(self.stops(), is_last, self.closes())
    }
}
