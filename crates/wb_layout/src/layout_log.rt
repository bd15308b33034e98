ghost use Rattle.std.specs.Prelude.{◌≡◌, None, is_some};
ghost use Rattle.wb_layout.specs.Logs.{noted};

use crate::layout::Layout;
use std::marker::Model;

/// What a layout goes back to: nothing, or all its positions as they were before the first change that is noted here.
#[derive(Drop)]
pub struct LayoutLog {
    kept: Option<Layout>,
}

impl Model for LayoutLog {
    ghost use Rattle.std.specs.Coded.{codes};
    ghost use Rattle.std.specs.FinMap as map;
    ghost use Rattle.std.specs.Prelude.{Option};
    ghost use Rattle.wb_layout.specs.Positions.{Positions};

    ghost Value = { Option Positions };

    ghost coded = { Prim.hlevel (codes, map.code) };

    ghost view = { λ l. l.kept };
}

impl LayoutLog {
    /// Nothing has changed yet.
    pub fn new() -> LayoutLog
        ensures { result ≡ None }
    {
        LayoutLog { kept: None }
    }

    /// The log that starts here.
    pub(crate) fn from(start: Option<Layout>) -> LayoutLog
        ensures { result ≡ start }
    {
        LayoutLog { kept: start }
    }

    /// Has something changed?
    pub(crate) fn has_start(&self) -> bool
        ensures { result ≡ is_some self.now }
    {
        self.kept.is_some()
    }

    /// Notes a change of these positions.
    pub(crate) fn note(&mut self, before: Layout)
        ensures { self.new ≡ noted self.old before }
    {
        if self.kept.is_none() {
            self.kept = Some(before);
        }
    }

    /// The positions at the start, where something has changed.
    pub(crate) fn into_start(self) -> Option<Layout>
        ensures { result ≡ self }
    {
        self.kept
    }
}
