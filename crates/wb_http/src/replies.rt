//! The replies that do not look at the diagram.
ghost use Rattle.std.specs.Prelude.{◌≡◌, None};
ghost use Rattle.wb_http.specs.Replies.{http_status, http_text, fixed_status, fixed_text, response};
ghost use Rattle.wb_http.specs.declared.replies.FixedReply.TheVariants.{Keeper, NoMemory};

use crate::refusals::HttpRefusal;

/// What is answered whatever stands in the diagram.
#[derive(Clone, Copy, Debug, PartialEq, Eq)]
pub enum FixedReply {
    /// No request was read.
    Http(HttpRefusal),
    NotFound,
    MethodNotAllowed,
    BadBody,
    UnknownElement,
    Keeper,
    NoMemory,
    Stopped,
}

fn status_of(refusal: HttpRefusal) -> u16
    ensures { result ≡ http_status refusal }
{
    match refusal {
        HttpRefusal::HeadTooLarge => 431,
        HttpRefusal::BadHead => 400,
        HttpRefusal::NotImplemented => 501,
        HttpRefusal::BadLength => 400,
        HttpRefusal::LengthRequired => 411,
        HttpRefusal::BodyTooLarge => 413,
    }
}

fn text_of(refusal: HttpRefusal) -> &'static str
    ensures { result.now ≡ http_text refusal }
{
    match refusal {
        HttpRefusal::HeadTooLarge => "{\"refusal\":\"head_too_large\"}",
        HttpRefusal::BadHead => "{\"refusal\":\"bad_head\"}",
        HttpRefusal::NotImplemented => "{\"refusal\":\"not_implemented\"}",
        HttpRefusal::BadLength => "{\"refusal\":\"bad_length\"}",
        HttpRefusal::LengthRequired => "{\"refusal\":\"length_required\"}",
        HttpRefusal::BodyTooLarge => "{\"refusal\":\"body_too_large\"}",
    }
}

impl FixedReply {
    pub fn status(self) -> u16
        ensures { result ≡ fixed_status self }
    {
        match self {
            FixedReply::Http(refusal) => status_of(refusal),
            FixedReply::NotFound => 404,
            FixedReply::MethodNotAllowed => 405,
            FixedReply::BadBody => 400,
            FixedReply::UnknownElement => 404,
            FixedReply::Keeper => 503,
            FixedReply::NoMemory => 507,
            FixedReply::Stopped => 200,
        }
    }

    /// The text of its body.
    pub fn text(self) -> &'static str
        ensures { result.now ≡ fixed_text self }
    {
        match self {
            FixedReply::Http(refusal) => text_of(refusal),
            FixedReply::NotFound => "{\"refusal\":\"not_found\"}",
            FixedReply::MethodNotAllowed => "{\"refusal\":\"method_not_allowed\"}",
            FixedReply::BadBody => "{\"refusal\":\"bad_body\"}",
            FixedReply::UnknownElement => "{\"refusal\":\"unknown_element\"}",
            FixedReply::Keeper => "{\"refusal\":\"keeper\"}",
            FixedReply::NoMemory => "{\"refusal\":\"no_memory\"}",
            FixedReply::Stopped => "{\"stopped\":true}",
        }
    }
}

/// The whole reply for want of memory, which takes none.
pub fn no_memory_reply(close: bool) -> &'static str
    ensures { result.now ≡ response 507 None close (fixed_text NoMemory) }
{
    if close {
        "HTTP/1.1 507 Insufficient Storage\r\nContent-Type: application/json\r\nContent-Length: 23\r\nConnection: close\r\n\r\n{\"refusal\":\"no_memory\"}"
    } else {
        "HTTP/1.1 507 Insufficient Storage\r\nContent-Type: application/json\r\nContent-Length: 23\r\n\r\n{\"refusal\":\"no_memory\"}"
    }
}

/// The whole reply for a commit that failed, which takes no memory.
pub fn keeper_reply(close: bool) -> &'static str
    ensures { result.now ≡ response 503 None close (fixed_text Keeper) }
{
    if close {
        "HTTP/1.1 503 Service Unavailable\r\nContent-Type: application/json\r\nContent-Length: 20\r\nConnection: close\r\n\r\n{\"refusal\":\"keeper\"}"
    } else {
        "HTTP/1.1 503 Service Unavailable\r\nContent-Type: application/json\r\nContent-Length: 20\r\n\r\n{\"refusal\":\"keeper\"}"
    }
}
