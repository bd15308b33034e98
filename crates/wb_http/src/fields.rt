//! What the fields of a head say.
ghost use Rattle.std.specs.Prelude.{◌≡◌, ◌≤◌, ◌<◌, ◌+◌, ◌^◌, ℕ, List, [], ◌∷◌, All, Some, IfSome, MatchOption, length, map, take, drop, reverse, codes};
ghost use Rattle.std.specs.List.{list_any, slice_split};
ghost use Rattle.httparse.specs.Grammar.{is_ows, skip_ows, trim_ows};
ghost use Rattle.httparse.specs.Spans.{IsHeaderWithin};
ghost use Rattle.wb_http.specs.Fields.{IsNamed, values, fields_at, same_letters, length_of, is_comma, is_close, says_close};

use httparse::spans::{HeaderSpan, Span};

/// How often a head has a field of a name, and the value where it stands once.
pub(crate) enum Named {
    Never,
    Once(Span),
    Often,
}

// Are the names the same without regard to ASCII case?
fn is_same_name(found: &[u8], name: &[u8]) -> bool
    ensures { result ≡ same_letters found.now name.now }
{
    found.eq_ignore_ascii_case(name)
}

/// How often these fields of a head have this name.
pub(crate) fn find_named(head: &[u8], fields: &[HeaderSpan], name: &[u8]) -> Named
    requires { All (IsHeaderWithin (length head.now)) fields.now }
    ensures { IsNamed head.now (values name.now (fields_at head.now fields.now)) result }
{
    let mut found = None;
    for field in fields {
        if is_same_name(field.name.of(head), name) {
            if found.is_some() {
                return Named::Often;
            }
            found = Some(field.value);
        }
    }
    match found {
        None => Named::Never,
        Some(value) => Named::Once(value),
    }
}

/// The number that 1 to 10 digits write.
pub(crate) fn read_length(value: &[u8]) -> Option<u64>
    ensures { result ≡ length_of value.now }
{
    if value.is_empty() || value.len() > 10 {
        return None;
    }
    let mut number = 0;
    for digit in value {
        if !digit.is_ascii_digit() {
            return None;
        }
        number = number * 10 + u64::from(*digit - b'0');
    }
    Some(number)
}

// Where the first comma stands.
fn first_comma(value: &[u8]) -> Option<usize>
    ensures small { IfSome result (λ at. at + 1 < 2 ^ 64) }
    ensures split { MatchOption result (slice_split is_comma value.now ≡ value.now ∷ [])
        (λ at. (at < length value.now) × (slice_split is_comma value.now ≡ take at value.now ∷ slice_split is_comma (drop (at + 1) value.now))) }
{
    for at in 0..value.len() {
        if value[at] == b',' {
            return Some(at);
        }
    }
    None
}

fn is_space(byte: u8) -> bool
    ensures { result ≡ is_ows byte }
{
    byte == b' ' || byte == b'\t'
}

fn without_front(member: &[u8]) -> &[u8]
    ensures { result.now ≡ skip_ows member.now }
{
    let mut rest = member;
    while !rest.is_empty() && is_space(rest[0]) {
        rest = &rest[1..];
    }
    rest
}

fn without_end(member: &[u8]) -> &[u8]
    ensures { result.now ≡ reverse (skip_ows (reverse member.now)) }
{
    let mut rest = member;
    while !rest.is_empty() && is_space(rest[rest.len() - 1]) {
        rest = &rest[..rest.len() - 1];
    }
    rest
}

// Is this `close`, with spaces and tabs around it?
#[tactic(auto, unfolding(crate::specs::Fields::is_close, httparse::specs::Grammar::trim_ows))]
fn is_close_member(member: &[u8]) -> bool
    ensures { result ≡ is_close member.now }
{
    is_same_name(without_end(without_front(member)), b"close")
}

// Is one of the members between the commas `close`?
fn is_closing(value: &[u8]) -> bool
    ensures { result ≡ says_close value.now }
{
    let mut rest = value;
    while let Some(at) = first_comma(rest) {
        if is_close_member(&rest[..at]) {
            return true;
        }
        rest = &rest[at + 1..];
    }
    is_close_member(rest)
}

/// Does a Connection field have the member `close`?
pub(crate) fn closes_connection(head: &[u8], fields: &[HeaderSpan]) -> bool
    requires { All (IsHeaderWithin (length head.now)) fields.now }
    ensures { result ≡ list_any says_close (values (codes "connection") (fields_at head.now fields.now)) }
{
    for field in fields {
        if is_same_name(field.name.of(head), b"connection") && is_closing(field.value.of(head)) {
            return true;
        }
    }
    false
}
