ghost use Rattle.std.specs.Prelude.{◌≡◌};
ghost use Rattle.serde_json.specs.View.{view};
ghost use Rattle.wb_json.specs.Form.{Gives};
ghost use Rattle.wb_commands.specs.Forms.{given_of, object_value_of};

use crate::members::object_at;
use std::alloc::Global;
use std::marker::Model;
use wb_base::Text;
use wb_diagram::Given;
use wb_json::{Form, Value, Wrong, listed};

/// A value as a body has it.
#[derive(Drop)]
pub(crate) struct GivenValue {
    value: Given,
}

impl Model for GivenValue {
    ghost use Rattle.wb_diagram.specs.declared.commands.Given.{Given};

    ghost Value = { Given };

    ghost view = { λ g. g.value };
}

impl GivenValue {
    /// The value, whose memory becomes the caller's.
    pub(crate) fn into_value(self) -> Given
        ensures { result ≡ self }
    {
        self.value
    }
}

impl Form for GivenValue {
    ghost use Rattle.wb_commands.specs.Forms.{given_of};

    ghost form = { given_of };

    #[tactic(auto, unfolding(crate::specs::Forms::given_of))]
    fn read(alloc: Global, value: &Value) -> Result<GivenValue, Wrong> {
        Ok(GivenValue {
            value: read_given(alloc, value)?,
        })
    }
}

#[tactic(auto, unfolding(crate::specs::Forms::given_of))]
fn read_given(alloc: Global, value: &Value) -> Result<Given, Wrong>
    ensures { Gives result (given_of (view value.now)) }
{
    if value.is_object() {
        return read_object_value(alloc, value);
    }
    if let Some(flag) = value.as_bool() {
        return Ok(Given::Bool(flag));
    }
    if let Some(text) = value.as_str() {
        return Ok(Given::Text(Text::from_str(alloc, text)?));
    }
    match value.as_i64() {
        Some(number) => Ok(Given::Int(number)),
        None => Err(Wrong::here(alloc)),
    }
}

fn read_object_value(alloc: Global, value: &Value) -> Result<Given, Wrong>
    ensures { Gives result (object_value_of (view value.now)) }
{
    listed(alloc, value, &["object"])?;
    Ok(Given::Object(object_at(alloc, value, "object")?))
}
