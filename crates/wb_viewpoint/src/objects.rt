ghost use Rattle.serde_json.specs.View.{view};
ghost use Rattle.wb_json.specs.Form.{Gives};
ghost use Rattle.wb_viewpoint.specs.Forms.{objects_of};

use crate::expression_texts::ExpressionText;
use std::alloc::Global;
use wb_json::{Name, Value, Wrong, needed, optional};

/// The objects that a mapping shows: those of its domain class among its candidates.
/// Without an expression all objects of the class are candidates.
pub struct Objects {
    pub domain: Name,
    pub candidates: Option<ExpressionText>,
}

impl Drop for Objects {
    fn drop(self) {
        let Objects {
            domain: _domain,
            candidates: _candidates,
        } = self;
    }
}

pub(crate) fn read_objects(alloc: Global, value: &Value) -> Result<Objects, Wrong>
    ensures { Gives result (objects_of (view value.now)) }
{
    let domain = needed(alloc, value, "domain")?;
    let candidates = optional(alloc, value, "candidates")?;
    Ok(Objects { domain, candidates })
}
