ghost use Rattle.std.specs.Prelude.{◌≡◌, ◌≤◌, map, length, nat_le, true};
ghost use Rattle.std.specs.List.{list_all};
ghost use Rattle.std.specs.Str.Parse.{digits_value};
ghost use Rattle.wb_base.specs.Names.{same_name};
ghost use Rattle.wb_program.specs.Words as asked;

/// A server serves at most so many connections.
pub const MOST_CONNECTIONS: u32 = 1_000_000;

/// A model that is made to measure has at most so many books.
const MOST_BOOKS: u32 = 2_000;

/// `check META SPEC`
#[tactic(auto, unfolding(crate::specs::Words::is_check))]
pub fn is_check(words: &[&str]) -> bool
    ensures { result ≡ asked.is_check (map (λ word. word.now) words.now) }
{
    words.len() == 3
        && is_same(words[0], "check")
        && is_file_name(words[1])
        && is_file_name(words[2])
}

/// `draw META SPEC MODEL`
#[tactic(auto, unfolding(crate::specs::Words::is_draw))]
pub fn is_draw(words: &[&str]) -> bool
    ensures { result ≡ asked.is_draw (map (λ word. word.now) words.now) }
{
    words.len() == 4 && is_same(words[0], "draw") && are_sources(words)
}

/// `serve META SPEC MODEL`
#[tactic(auto, unfolding(crate::specs::Words::is_serve))]
pub fn is_serve(words: &[&str]) -> bool
    ensures { result ≡ asked.is_serve (map (λ word. word.now) words.now) }
{
    words.len() == 4 && is_same(words[0], "serve") && are_sources(words)
}

/// `serve META SPEC MODEL --connections N`
#[tactic(auto, unfolding(crate::specs::Words::is_limited_serve))]
pub fn is_limited_serve(words: &[&str]) -> bool
    ensures { result ≡ asked.is_limited_serve (map (λ word. word.now) words.now) }
{
    words.len() == 6
        && is_same(words[0], "serve")
        && are_sources(words)
        && is_same(words[4], "--connections")
        && is_number(MOST_CONNECTIONS, words[5])
}

/// `big N`
#[tactic(auto, unfolding(crate::specs::Words::is_big))]
pub fn is_big(words: &[&str]) -> bool
    ensures { result ≡ asked.is_big (map (λ word. word.now) words.now) }
{
    words.len() == 2 && is_same(words[0], "big") && is_number(MOST_BOOKS, words[1])
}

fn is_same(one: &str, other: &str) -> bool
    ensures { result ≡ same_name one.now other.now }
{
    one == other
}

/// Are the second, third and fourth word names of files?
fn are_sources(words: &[&str]) -> bool
    requires { 4 ≤ length words.now }
    ensures { result ≡ asked.are_sources (map (λ word. word.now) words.now) }
{
    is_file_name(words[1]) && is_file_name(words[2]) && is_file_name(words[3])
}

/// Is this not empty, and without `-` in front?
#[tactic(auto, unfolding(crate::specs::Words::is_file_name))]
fn is_file_name(name: &str) -> bool
    ensures { result ≡ asked.is_file_name name.now }
{
    let bytes = name.as_bytes();
    !bytes.is_empty() && bytes[0] != b'-'
}

/// Is this a number from 1 to the most that there may be, in decimal digits without a leading zero?
#[tactic(auto, unfolding(crate::specs::Words::is_number))]
fn is_number(most: u32, word: &str) -> bool
    ensures { result ≡ asked.is_number most word.now }
{
    is_numeral(word.as_bytes()) && is_at_most(most, word)
}

fn is_numeral(word: &[u8]) -> bool
    ensures { result ≡ asked.is_numeral word.now }
{
    !word.is_empty() && word[0] != b'0' && are_digits(word)
}

fn are_digits(word: &[u8]) -> bool
    ensures { result ≡ list_all asked.is_digit word.now }
{
    word.iter().all(|byte| is_digit(*byte))
}

fn is_digit(byte: u8) -> bool
    ensures { result ≡ asked.is_digit byte }
{
    b'0' <= byte && byte <= b'9'
}

/// Do these digits write at most so much?
fn is_at_most(most: u32, digits: &str) -> bool
    requires { asked.is_numeral digits.now ≡ true }
    ensures { result ≡ nat_le (digits_value 10 digits.now) most }
{
    match digits.parse::<u32>() {
        Ok(number) => number <= most,
        Err(_) => false,
    }
}

/// The number that a word writes.
pub fn number_in(word: &str) -> u32
    requires { asked.is_number 1000000 word.now ≡ true }
    ensures { result ≡ digits_value 10 word.now }
{
    word.parse::<u32>().unwrap()
}
