ghost use Rattle.std.specs.Prelude.{◌≡◌};
ghost use Rattle.wb_viewpoint.specs.Refusals.{number_of};

/// What is wrong with a viewpoint's text.
#[derive(Clone, Copy, Debug, PartialEq, Eq)]
pub enum ViewpointCode {
    /// It is no JSON.
    BadJson = 1,
    /// It is not of the form.
    BadShape = 2,
    /// It passes a limit.
    TooMany = 3,
}

impl ViewpointCode {
    /// The number of a code, in the order in which texts are checked for them.
    pub fn number(self) -> u8
        ensures { result ≡ number_of self }
    {
        self as u8
    }
}
