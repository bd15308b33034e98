/// How past and future go on.
#[derive(Clone, Copy)]
pub enum Turn {
    /// A step further: nothing is left to be done again.
    Forward,
    /// A step back into the past.
    Back,
    /// A step that was undone, again.
    Again,
}
