ghost use Rattle.serde_json.specs.View.{view};
ghost use Rattle.wb_json.specs.Form.{Gives};
ghost use Rattle.wb_viewpoint.specs.Forms.{looks_of};

use crate::expression_texts::ExpressionText;
use std::alloc::Global;
use wb_base::List;
use wb_json::{Form, Name, Value, Wrong, list_or_empty, listed, needed, optional};

/// How an element looks.
pub struct Style {
    pub shape: Name,
    pub color: Name,
    pub label: Option<ExpressionText>,
}

impl Drop for Style {
    fn drop(self) {
        let Style {
            shape: _shape,
            color: _color,
            label: _label,
        } = self;
    }
}

/// A style for the elements of which a condition holds.
pub struct ConditionalStyle {
    pub when: ExpressionText,
    pub style: Style,
}

impl Drop for ConditionalStyle {
    fn drop(self) {
        let ConditionalStyle {
            when: _when,
            style: _style,
        } = self;
    }
}

/// The looks of a mapping's elements: the first conditional style that holds, or else the style.
pub struct Looks {
    pub style: Style,
    pub styles: List<ConditionalStyle>,
}

impl Drop for Looks {
    fn drop(self) {
        let Looks {
            style: _style,
            styles: _styles,
        } = self;
    }
}

impl Form for Style {
    ghost use Rattle.wb_viewpoint.specs.Forms.{style_of};

    ghost form = { style_of };

    #[tactic(auto, unfolding(crate::specs::Forms::style_of))]
    fn read(alloc: Global, value: &Value) -> Result<Style, Wrong> {
        listed(alloc, value, &["shape", "color", "label"])?;
        let shape = needed(alloc, value, "shape")?;
        let color = needed(alloc, value, "color")?;
        let label = optional(alloc, value, "label")?;
        Ok(Style {
            shape,
            color,
            label,
        })
    }
}

impl Form for ConditionalStyle {
    ghost use Rattle.wb_viewpoint.specs.Forms.{conditional_style_of};

    ghost form = { conditional_style_of };

    #[tactic(auto, unfolding(crate::specs::Forms::conditional_style_of))]
    fn read(alloc: Global, value: &Value) -> Result<ConditionalStyle, Wrong> {
        listed(alloc, value, &["when", "style"])?;
        let when = needed(alloc, value, "when")?;
        let style = needed(alloc, value, "style")?;
        Ok(ConditionalStyle { when, style })
    }
}

pub(crate) fn read_looks(alloc: Global, value: &Value) -> Result<Looks, Wrong>
    ensures { Gives result (looks_of (view value.now)) }
{
    let style = needed(alloc, value, "style")?;
    let styles = list_or_empty(alloc, value, "styles")?;
    Ok(Looks { style, styles })
}
