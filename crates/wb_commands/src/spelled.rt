ghost use Rattle.std.specs.Prelude.{◌≡◌, ◌↔◌, Some};
ghost use Rattle.wb_json.specs.Form.{Gives, or_wrong};
ghost use Rattle.wb_diagram.specs.Keys.{Spells};
ghost use Rattle.wb_commands.specs.Keys.{key_in};

use std::alloc::Global;
use std::marker::Model;
use wb_diagram::{AnyKey, read_key};
use wb_json::{Form, Value, Wrong};

/// A key that a string spells.
#[derive(Drop)]
pub(crate) struct SpelledKey {
    key: AnyKey,
}

impl Model for SpelledKey {
    ghost use Rattle.wb_diagram.specs.declared.keys.AnyKey.{AnyKey};

    ghost Value = { AnyKey };

    ghost view = { λ k. k.key };
}

impl SpelledKey {
    /// The key, whose memory becomes the caller's.
    pub(crate) fn into_key(self) -> AnyKey
        ensures { result ≡ self }
    {
        self.key
    }
}

impl Form for SpelledKey {
    ghost use Rattle.wb_commands.specs.Forms.{key_of};

    ghost form = { key_of };

    #[tactic(auto, unfolding(crate::specs::Forms::key_of))]
    fn read(alloc: Global, value: &Value) -> Result<SpelledKey, Wrong> {
        match value.as_str() {
            Some(text) => read_spelled(alloc, text),
            None => Err(Wrong::here(alloc)),
        }
    }
}

#[tactic(auto, using(crate::proofs::KeyTexts::key_found))]
fn read_spelled(alloc: Global, text: &str) -> Result<SpelledKey, Wrong>
    ensures { Gives result (or_wrong (key_in text.now)) }
{
    match read_key(alloc, text.as_bytes())? {
        Some(key) => Ok(SpelledKey { key }),
        None => Err(Wrong::here(alloc)),
    }
}

/// The key in a text is the one that the text spells.
pub fn what_is_spelled(text: &[u8], key: &AnyKey)
    ensures { Spells text.now key.now ↔ (key_in text.now ≡ Some key.now) }
{}
