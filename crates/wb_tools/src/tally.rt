/// How many edits and expressions were asked for.
#[derive(Clone, Copy)]
pub struct Tally {
    pub edits: u32,
    pub expressions: u32,
}
