//! Whole heads: whether one is refused, and what it announces.
ghost use Rattle.std.specs.Prelude.{◌≡◌, ◌≤◌, ◌==◌, not, All, IfSome, IfNone, length, nat_lt, codes};
ghost use Rattle.httparse.specs.Grammar.{RequestHead};
ghost use Rattle.httparse.specs.Spans.{IsWithin, IsHeaderWithin, IsRequestWithin, IsRequestAt};
ghost use Rattle.wb_http.specs.Ends.{lines_of};
ghost use Rattle.wb_http.specs.Fields.{values, fields_at, length_of};
ghost use Rattle.wb_http.specs.Heads.{Announces, Covers, IsJudged, IsJudgedShort};
ghost use Rattle.wb_http.specs.Requests.{IsHead, length_by, line_limit, within_limit};

use crate::ends::count_lines;
use crate::fields::{Named, closes_connection, find_named, read_length};
use crate::refusals::HttpRefusal;
use httparse::Status;
use httparse::spans::{EMPTY_HEADER_SPAN, HeaderSpan, RequestSpans, Span, parse_request};

/// What is kept of a head: where its method and its target stand, whether the connection closes after the request, and
/// the length of the body.
#[derive(Clone, Copy)]
pub(crate) struct Head {
    pub method: Span,
    pub target: Span,
    pub close: bool,
    pub body: usize,
}

fn has_one_host(head: &[u8], fields: &[HeaderSpan]) -> bool
    requires { All (IsHeaderWithin (length head.now)) fields.now }
    ensures { result ≡ (length (values (codes "host") (fields_at head.now fields.now)) == 1) }
{
    match find_named(head, fields, b"host") {
        Named::Once(_) => true,
        Named::Never => false,
        Named::Often => false,
    }
}

fn has_encoding(head: &[u8], fields: &[HeaderSpan]) -> bool
    requires { All (IsHeaderWithin (length head.now)) fields.now }
    ensures { result ≡ not (length (values (codes "transfer-encoding") (fields_at head.now fields.now)) == 0) }
{
    match find_named(head, fields, b"transfer-encoding") {
        Named::Never => false,
        Named::Once(_) => true,
        Named::Often => true,
    }
}

// The length that a value of Content-Length announces.
fn announced_by(value: &[u8]) -> Result<usize, HttpRefusal>
    ensures { result ≡ within_limit (length_of value.now) }
{
    match read_length(value) {
        None => Err(HttpRefusal::BadLength),
        Some(length) if length > 1_048_576 => Err(HttpRefusal::BodyTooLarge),
        Some(length) => Ok(length as usize),
    }
}

// The length of the body.
fn body_length(head: &[u8], fields: &[HeaderSpan], is_post: bool) -> Result<usize, HttpRefusal>
    requires { All (IsHeaderWithin (length head.now)) fields.now }
    ensures { result ≡ length_by is_post (values (codes "content-length") (fields_at head.now fields.now)) }
{
    match find_named(head, fields, b"content-length") {
        Named::Never if is_post => Err(HttpRefusal::LengthRequired),
        Named::Never => Ok(0),
        Named::Once(value) => announced_by(value.of(head)),
        Named::Often => Err(HttpRefusal::BadLength),
    }
}

// What the fields of a head announce.
fn judge_fields(
    head: &[u8],
    spans: RequestSpans,
    fields: &[HeaderSpan],
) -> Result<Head, HttpRefusal>
    requires method { IsWithin (length head.now) spans.method }
    requires target { IsWithin (length head.now) spans.path }
    requires fields { All (IsHeaderWithin (length head.now)) fields.now }
    ensures { (h : RequestHead) → Covers head.now spans fields.now h → Announces head.now h result }
{
    if spans.version == 1 && !has_one_host(head, fields) {
        return Err(HttpRefusal::BadHead);
    }
    if has_encoding(head, fields) {
        return Err(HttpRefusal::NotImplemented);
    }
    let body = body_length(head, fields, spans.method.of(head) == b"POST".as_slice())?;
    Ok(Head {
        method: spans.method,
        target: spans.path,
        close: spans.version == 0 || closes_connection(head, fields),
        body,
    })
}

// The parts of a whole head, and where its fields are.
fn read_head(head: &[u8], fields: &mut [HeaderSpan]) -> Option<RequestSpans>
    requires { length fields.old ≡ 64 }
    ensures room { length fields.new ≡ 64 }
    ensures found { IfSome result (λ spans. (h : RequestHead) × IsHead head.now h × IsRequestAt head.now fields.new spans h) }
    ensures within { IfSome result (λ spans. (spans.len ≡ length head.now) × IsRequestWithin head.now fields.new spans) }
    ensures bad { IfNone result ((h : RequestHead) → ¬ (IsHead head.now h)) }
{
    match parse_request(head, fields) {
        Ok(Status::Complete(spans)) if spans.len == head.len() => Some(spans),
        _ => None,
    }
}

// What a head of at most 66 lines announces.
fn judge_short(head: &[u8]) -> Result<Head, HttpRefusal>
    ensures { IsJudgedShort head.now result }
{
    let mut fields = [EMPTY_HEADER_SPAN; 64];
    match read_head(head, &mut fields) {
        None => Err(HttpRefusal::BadHead),
        Some(spans) => judge_fields(head, spans, &fields[..spans.headers]),
    }
}

fn has_many_lines(head: &[u8]) -> bool
    ensures { result ≡ nat_lt line_limit (lines_of head.now) }
{
    count_lines(head) > 66
}

/// What a head announces, or the first refusal that holds of it.
pub(crate) fn judge(head: &[u8]) -> Result<Head, HttpRefusal>
    ensures { IsJudged head.now result }
{
    if has_many_lines(head) {
        return Err(HttpRefusal::HeadTooLarge);
    }
    judge_short(head)
}
