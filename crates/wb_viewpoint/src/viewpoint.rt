ghost use Rattle.std.specs.Prelude.{◌≡◌, true};
ghost use Rattle.wb_viewpoint.specs.Limits.{is_small};

use crate::content::Content;
use std::marker::Model;

/// A viewpoint within all limits. Contracts see what its text says.
#[derive(Drop)]
pub struct Viewpoint {
    content: Content,
}

impl Model for Viewpoint {
    ghost use Rattle.std.specs.Prelude.{IsTrue};
    ghost use Rattle.wb_viewpoint.specs.declared.content.Content.{Content};
    ghost use Rattle.wb_viewpoint.specs.contracts.content.Content as row;
    ghost use Rattle.wb_viewpoint.specs.Limits.{is_small};

    ghost Value = { Content };

    ghost coded = { row.the_row.coded };

    ghost view = { λ v. v.content };

    ghost invariant = { λ v. IsTrue (is_small v.content) };
}

impl Viewpoint {
    pub(crate) fn new(content: Content) -> Viewpoint
        requires { is_small content ≡ true }
        ensures { result ≡ content }
    {
        Viewpoint { content }
    }

    /// What the viewpoint's text says.
    pub fn content(&self) -> &Content
        ensures same { result.now ≡ self.now }
        ensures small { is_small result.now ≡ true }
    {
        &self.content
    }
}
