ghost use Rattle.std.specs.Prelude.{◌≡◌, ◌≤◌, length};

use std::alloc::Global;
use std::marker::Model;
use wb_base::Text;
use wb_json::{Form, Value, Wrong};

/// An expression as a viewpoint's text has it: any text of at most 4,096 bytes, with its prefix.
#[derive(Drop)]
pub struct ExpressionText {
    text: Text,
}

impl Model for ExpressionText {
    ghost use Rattle.std.specs.Prelude.{List, ℕ, ◌≤◌, length};

    ghost Value = { List ℕ };

    ghost view = { λ e. e.text };

    ghost invariant = { λ e. length e.text ≤ 4096 };
}

impl ExpressionText {
    pub(crate) fn new(text: Text) -> ExpressionText
        requires { length text ≤ 4096 }
        ensures { result ≡ text }
    {
        ExpressionText { text }
    }

    pub fn as_str(&self) -> &str
        ensures same { result.now ≡ self.now }
        ensures few { length result.now ≤ 4096 }
    {
        self.text.as_str()
    }
}

impl Form for ExpressionText {
    ghost use Rattle.wb_viewpoint.specs.Forms.{expression_of};

    ghost form = { expression_of };

    #[tactic(auto, unfolding(crate::specs::Forms::expression_of))]
    fn read(alloc: Global, value: &Value) -> Result<ExpressionText, Wrong> {
        match value.as_str() {
            Some(text) if text.len() <= 4096 => {
                Ok(ExpressionText::new(Text::from_str(alloc, text)?))
            }
            _ => Err(Wrong::here(alloc)),
        }
    }
}
