use crate::expression_texts::ExpressionText;
use std::alloc::Global;
use wb_base::List;
use wb_json::{Form, Name, Value, Wrong, listed, needed};

/// A filter, which hides elements of some mappings while it is active.
pub struct Filter {
    pub name: Name,
    /// The names of the mappings.
    pub mappings: List<Name>,
    /// Is an element hidden?
    pub hides: ExpressionText,
}

impl Drop for Filter {
    fn drop(self) {
        let Filter {
            name: _name,
            mappings: _mappings,
            hides: _hides,
        } = self;
    }
}

impl Form for Filter {
    ghost use Rattle.wb_viewpoint.specs.Forms.{filter_of};

    ghost form = { filter_of };

    #[tactic(auto, unfolding(crate::specs::Forms::filter_of))]
    fn read(alloc: Global, value: &Value) -> Result<Filter, Wrong> {
        listed(alloc, value, &["name", "mappings", "hides"])?;
        let name = needed(alloc, value, "name")?;
        let mappings = needed(alloc, value, "mappings")?;
        let hides = needed(alloc, value, "hides")?;
        Ok(Filter {
            name,
            mappings,
            hides,
        })
    }
}
