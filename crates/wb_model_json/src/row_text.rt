use crate::model_text::SlotText;
use std::alloc::Global;
use wb_json::{Form, Members, Name, Value, Wrong, listed, needed};

/// A row, as its text says it: a class, and slots by the names of their features.
#[derive(Debug, Drop)]
pub struct RowText {
    pub class: Name,
    pub slots: Members<SlotText>,
}

impl Form for RowText {
    ghost use Rattle.wb_model_json.specs.RowText.{row_text_of};

    ghost form = { row_text_of };

    #[tactic(auto, unfolding(crate::specs::RowText::row_text_of))]
    fn read(alloc: Global, value: &Value) -> Result<RowText, Wrong> {
        listed(alloc, value, &["class", "slots"])?;
        let class = needed(alloc, value, "class")?;
        let slots = needed(alloc, value, "slots")?;
        Ok(RowText { class, slots })
    }
}
