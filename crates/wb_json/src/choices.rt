ghost use Rattle.std.specs.Prelude.{◌≡◌, map, nat_eq};
ghost use Rattle.std.specs.Cmp.Lexicographic.{pointwise};
ghost use Rattle.serde_json.specs.View.{view};
ghost use Rattle.wb_json.specs.Form.{Gives, word_of, meaning_of};

use crate::wrong::Wrong;
use serde_json::Value;
use std::alloc::Global;

/// One of these words. Each of them means a value.
pub fn chosen<T: Copy>(alloc: Global, value: &Value, words: &[(&str, T)]) -> Result<T, Wrong>
    ensures { Gives result (word_of (map (λ word. (word.0.now, word.1)) words.now) (view value.now)) }
{
    match value.as_str() {
        Some(text) => meaning_of(words, text).ok_or(Wrong::here(alloc)),
        None => Err(Wrong::here(alloc)),
    }
}

fn meaning_of<T: Copy>(words: &[(&str, T)], text: &str) -> Option<T>
    ensures { result ≡ meaning_of (map (λ word. (word.0.now, word.1)) words.now) text.now }
{
    for word in words {
        if is_same(word.0, text) {
            return Some(word.1);
        }
    }
    None
}

/// Are the two texts the same, byte for byte?
pub(crate) fn is_same(one: &str, other: &str) -> bool
    ensures { result ≡ pointwise nat_eq one.now other.now }
{
    one == other
}
