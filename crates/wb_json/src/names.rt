ghost use Rattle.std.specs.Prelude.{◌≡◌, true, IfOk};
ghost use Rattle.wb_base.specs.Names.{is_name};
ghost use Rattle.wb_json.specs.Form.{name_of};

use crate::form::Form;
use crate::wrong::Wrong;
use serde_json::Value;
use std::alloc::{AllocError, Global};
use std::marker::Model;
use wb_base::{Text, is_name};

/// A name: an ASCII letter or `_`, then letters, digits and `_`, at most 64 bytes.
#[derive(Debug, Drop)]
pub struct Name {
    text: Text,
}

impl Model for Name {
    ghost use Rattle.std.specs.Prelude.{List, ℕ, IsTrue};
    ghost use Rattle.wb_base.specs.Names.{is_name};

    ghost Value = { List ℕ };

    ghost view = { λ n. n.text };

    ghost invariant = { λ n. IsTrue (is_name n.text) };
}

impl Name {
    /// The name that this text is.
    pub fn new(alloc: Global, text: &str) -> Result<Name, AllocError>
        requires { is_name text.now ≡ true }
        ensures { IfOk result (λ name. name ≡ text.now) }
    {
        Ok(Name {
            text: Text::from_str(alloc, text)?,
        })
    }

    pub fn as_str(&self) -> &str
        ensures same { result.now ≡ self.now }
        ensures name { is_name result.now ≡ true }
    {
        self.text.as_str()
    }

    /// The name's text, whose memory becomes the caller's.
    pub fn into_text(self) -> Text
        ensures same { result ≡ self }
        ensures name { is_name result ≡ true }
    {
        self.text
    }
}

impl Form for Name {
    ghost form = { name_of };

    fn read(alloc: Global, value: &Value) -> Result<Name, Wrong> {
        match value.as_str() {
            Some(text) if is_name(text) => Ok(Name::new(alloc, text)?),
            _ => Err(Wrong::here(alloc)),
        }
    }
}
