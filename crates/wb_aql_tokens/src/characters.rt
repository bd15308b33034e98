ghost use Rattle.std.specs.Prelude.{◌≡◌, ◌≤◌, [], ◌∷◌, length, min, take, drop, MatchOption};
ghost use Rattle.std.specs.List.{prefix_len};
ghost use Rattle.std.specs.Char.{is_ascii_digit};
ghost use Rattle.wb_aql_tokens.specs.Lexes.{is_blank};
ghost use Rattle.wb_base.specs.Names.{is_name_start, is_name_byte};
ghost use Rattle.wb_aql_tokens.specs.Lexer.{start_of};

/// The first byte, and what follows it.
pub fn first_byte(text: &[u8]) -> Option<(u8, &[u8])>
    ensures { MatchOption result (text.now ≡ []) (λ u. text.now ≡ u.0 ∷ u.1.now) }
{
    match text.split_first() {
        Some((first, rest)) => Some((*first, rest)),
        None => None,
    }
}

/// A letter or `_`.
pub fn is_name_start(byte: u8) -> bool
    ensures { result ≡ is_name_start byte }
{
    byte.is_ascii_alphabetic() || byte == b'_'
}

/// A letter, a digit or `_`.
pub fn is_name_byte(byte: u8) -> bool
    ensures { result ≡ is_name_byte byte }
{
    byte.is_ascii_alphanumeric() || byte == b'_'
}

/// What a token can be, by its first byte.
#[derive(Clone, Copy)]
pub enum Start {
    /// A name or a reserved word.
    Word,
    Integer,
    Quoted,
    Sign,
}

/// What a token that begins with this byte can be.
pub fn start_of(byte: u8) -> Start
    ensures { result ≡ start_of byte }
{
    if is_name_start(byte) {
        Start::Word
    } else if byte.is_ascii_digit() {
        Start::Integer
    } else if byte == b'\'' {
        Start::Quoted
    } else {
        Start::Sign
    }
}

/// A space, tab, LF or CR.
pub fn is_blank(byte: u8) -> bool
    ensures { result ≡ is_blank byte }
{
    matches!(byte, b' ' | b'\t' | b'\n' | b'\r')
}

/// How many name bytes the text begins with.
fn name_bytes_len(text: &[u8]) -> usize
    ensures value { result ≡ prefix_len is_name_byte text.now }
    ensures within { result ≤ length text.now }
{
    text.iter().take_while(|byte| is_name_byte(**byte)).count()
}

/// How many of the first 64 bytes are a run of name bytes.
fn name_len(text: &[u8]) -> usize
    ensures value { result ≡ min (prefix_len is_name_byte text.now) 64 }
    ensures within { result ≤ length text.now }
{
    name_bytes_len(&text[..text.len().min(64)])
}

/// How many digits the text begins with.
fn digits_len(text: &[u8]) -> usize
    ensures value { result ≡ prefix_len is_ascii_digit text.now }
    ensures within { result ≤ length text.now }
{
    text.iter().take_while(|byte| byte.is_ascii_digit()).count()
}

/// The name bytes that the text begins with, 64 at most, and what follows them.
pub fn name_run(text: &[u8]) -> (&str, &[u8])
    ensures front { result.0.now ≡ take (min (prefix_len is_name_byte text.now) 64) text.now }
    ensures behind { result.1.now ≡ drop (min (prefix_len is_name_byte text.now) 64) text.now }
{
    let (run, rest) = text.split_at(name_len(text));
    match std::str::from_utf8(run) {
        Ok(name) => (name, rest),
        Err(_) => unreachable!(),
    }
}

/// The digits that the text begins with, and what follows them.
pub fn digit_run(text: &[u8]) -> (&str, &[u8])
    ensures front { result.0.now ≡ take (prefix_len is_ascii_digit text.now) text.now }
    ensures behind { result.1.now ≡ drop (prefix_len is_ascii_digit text.now) text.now }
{
    let (run, rest) = text.split_at(digits_len(text));
    match std::str::from_utf8(run) {
        Ok(digits) => (digits, rest),
        Err(_) => unreachable!(),
    }
}

/// How many blanks the text begins with.
fn blanks_len(text: &[u8]) -> usize
    ensures value { result ≡ prefix_len is_blank text.now }
    ensures within { result ≤ length text.now }
{
    text.iter().take_while(|byte| is_blank(**byte)).count()
}

/// What follows the blanks that the text begins with.
pub fn after_blanks(text: &[u8]) -> &[u8]
    ensures { result.now ≡ drop (prefix_len is_blank text.now) text.now }
{
    &text[blanks_len(text)..]
}
