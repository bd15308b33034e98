ghost use Rattle.std.specs.Prelude.{◌≡◌, [], ◌∷◌, IfOk};
ghost use Rattle.serde_json.specs.View.{view};
ghost use Rattle.wb_json.specs.Form.{Gives};
ghost use Rattle.wb_model_json.specs.ModelText.{model_of};

use std::alloc::{AllocError, Global};
use wb_base::{List, Text};
use wb_json::{Form, Members, Name, Value, Wrong, listed, needed};

/// A value of a slot, before its feature is known.
#[derive(Debug, Drop)]
pub enum ScalarText {
    Number(i64),
    Flag(bool),
    Words(Text),
}

/// The values of a slot.
#[derive(Debug, Drop)]
pub struct SlotText {
    /// Are they written as a list?
    pub listed: bool,
    pub values: List<ScalarText>,
}

/// An object, with its slots by the names of their features.
#[derive(Debug)]
pub struct ObjectText {
    pub id: u32,
    pub class: Name,
    pub slots: Members<SlotText>,
}

impl Drop for ObjectText {
    fn drop(self) {
        let ObjectText {
            id: _,
            class: _class,
            slots: _slots,
        } = self;
    }
}

/// A model, as its text says it.
#[derive(Debug)]
pub struct ModelText {
    pub next: u32,
    pub roots: List<u32>,
    pub objects: List<ObjectText>,
}

impl Drop for ModelText {
    fn drop(self) {
        let ModelText {
            next: _,
            roots: _roots,
            objects: _objects,
        } = self;
    }
}

impl Form for ScalarText {
    ghost use Rattle.wb_model_json.specs.ModelText.{scalar_of};

    ghost form = { scalar_of };

    fn read(alloc: Global, value: &Value) -> Result<ScalarText, Wrong> {
        if let Some(flag) = value.as_bool() {
            return Ok(ScalarText::Flag(flag));
        }
        if let Some(text) = value.as_str() {
            return Ok(ScalarText::Words(Text::from_str(alloc, text)?));
        }
        match value.as_i64() {
            Some(number) => Ok(ScalarText::Number(number)),
            None => Err(Wrong::here(alloc)),
        }
    }
}

/// The list of one value.
fn alone(alloc: Global, scalar: ScalarText) -> Result<List<ScalarText>, AllocError>
    ensures { IfOk result (λ values. values ≡ scalar ∷ []) }
{
    let mut values = List::new(alloc);
    values.push(scalar)?;
    Ok(values)
}

impl Form for SlotText {
    ghost use Rattle.wb_model_json.specs.ModelText.{slot_of};

    ghost form = { slot_of };

    #[tactic(auto, unfolding(crate::specs::ModelText::slot_of))]
    fn read(alloc: Global, value: &Value) -> Result<SlotText, Wrong> {
        if value.is_array() {
            let values = List::read(alloc, value)?;
            return Ok(SlotText {
                listed: true,
                values,
            });
        }
        let scalar = ScalarText::read(alloc, value)?;
        Ok(SlotText {
            listed: false,
            values: alone(alloc, scalar)?,
        })
    }
}

impl Form for ObjectText {
    ghost use Rattle.wb_model_json.specs.ModelText.{object_of};

    ghost form = { object_of };

    #[tactic(auto, unfolding(crate::specs::ModelText::object_of))]
    fn read(alloc: Global, value: &Value) -> Result<ObjectText, Wrong> {
        listed(alloc, value, &["id", "class", "slots"])?;
        let id = needed(alloc, value, "id")?;
        let class = needed(alloc, value, "class")?;
        let slots = needed(alloc, value, "slots")?;
        Ok(ObjectText { id, class, slots })
    }
}

/// Reads the text of a model.
#[tactic(auto, unfolding(crate::specs::ModelText::model_of))]
pub fn read_model_text(alloc: Global, value: &Value) -> Result<ModelText, Wrong>
    ensures { Gives result (model_of (view value.now)) }
{
    listed(alloc, value, &["next", "roots", "objects"])?;
    let next = needed(alloc, value, "next")?;
    let roots = needed(alloc, value, "roots")?;
    let objects = needed(alloc, value, "objects")?;
    Ok(ModelText {
        next,
        roots,
        objects,
    })
}
