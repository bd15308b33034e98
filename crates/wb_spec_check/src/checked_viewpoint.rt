ghost use Rattle.std.specs.Prelude.{◌≡◌};
ghost use Rattle.wb_spec_check.specs.Checked.{IsGood};

use crate::parts::Parts;
use std::marker::Model;
use wb_viewpoint::Viewpoint;

/// A viewpoint without problems. Contracts see what its text says, and its parts.
pub struct CheckedViewpoint {
    viewpoint: Viewpoint,
    parts: Parts,
}

impl Drop for CheckedViewpoint {
    fn drop(self) {
        let CheckedViewpoint {
            viewpoint: _viewpoint,
            parts: _parts,
        } = self;
    }
}

impl Model for CheckedViewpoint {
    ghost use Rattle.std.specs.Coded.{coded×};
    ghost use Rattle.wb_viewpoint.specs.declared.content.Content.{Content};
    ghost use Rattle.wb_viewpoint.specs.contracts.content.Content as the_content;
    ghost use Rattle.wb_spec_check.specs.Checked.{Specification, IsGood};
    ghost use Rattle.wb_spec_check.specs.contracts.parts.Parts as the_parts;

    ghost Value = { Specification };

    ghost coded = { coded× the_content.the_row.coded the_parts.the_row.coded };

    ghost view = { λ c. (c.viewpoint, c.parts) };

    ghost invariant = { λ c. IsGood (c.viewpoint, c.parts) };
}

impl CheckedViewpoint {
    pub(crate) fn new(viewpoint: Viewpoint, parts: Parts) -> CheckedViewpoint
        requires { IsGood (viewpoint, parts) }
        ensures { result ≡ (viewpoint, parts) }
    {
        CheckedViewpoint { viewpoint, parts }
    }

    /// The viewpoint that was checked.
    pub fn viewpoint(&self) -> &Viewpoint
        ensures same { result.now ≡ self.now.0 }
        ensures good { IsGood self.now }
    {
        &self.viewpoint
    }

    /// What its names name, by number.
    pub fn parts(&self) -> &Parts
        ensures same { result.now ≡ self.now.1 }
        ensures good { IsGood self.now }
    {
        &self.parts
    }
}
