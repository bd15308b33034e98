//! Where the head of a request ends, and how many lines it has.
ghost use Rattle.std.specs.Prelude.{◌≡◌, ◌≤◌, ℕ, List, ◌∷◌, IfNone, length, take};
ghost use Rattle.wb_http.specs.Ends.{Tells, head_length, lines_of, still_of, still_after, one_more};
ghost use Rattle.wb_http.specs.declared.ends.Mark.{Mark};

/// What the bytes so far end with, where no head has ended yet.
#[derive(Clone, Copy, Debug)]
pub(crate) enum Mark {
    /// They are CR and LF alone.
    Blank,
    /// The head began, and an empty line cannot go on from here.
    Text,
    /// The head began, and they end with LF.
    Feed,
    /// The head began, and they end with LF and CR.
    FeedReturn,
}

// The mark after one more byte; `None` where the head ends with it.
#[tactic(auto, unfolding(crate::specs::Ends::head_length, crate::specs::Ends::to_empty_line))]
fn mark_after(mark: Mark, byte: u8) -> Option<Mark>
    ensures { (rest : List ℕ) → still_of mark (byte ∷ rest) ≡ one_more (still_after result rest) }
{
    match (mark, byte) {
        (Mark::Blank, b'\r' | b'\n') => Some(Mark::Blank),
        (Mark::Feed | Mark::FeedReturn, b'\n') => None,
        (Mark::Text, b'\n') => Some(Mark::Feed),
        (Mark::Feed, b'\r') => Some(Mark::FeedReturn),
        _ => Some(Mark::Text),
    }
}

/// How far the bytes at the front of a connection were looked through for the end of a head.
#[derive(Clone, Copy, Debug)]
pub(crate) struct Progress {
    pub seen: usize,
    pub mark: Mark,
}

/// Looks on for the end of a head, from where it stopped. It answers the head's length.
pub(crate) fn find_end(bytes: &[u8], progress: &mut Progress) -> Option<usize>
    requires seen { progress.old.seen ≤ length bytes.now }
    requires tells { Tells progress.old.mark (take progress.old.seen bytes.now) }
    ensures found { result ≡ head_length bytes.now }
    ensures seen { progress.new.seen ≤ length bytes.now }
    ensures tells { IfNone result (Tells progress.new.mark (take progress.new.seen bytes.now)) }
{
    while progress.seen < bytes.len() {
        let byte = bytes[progress.seen];
        progress.seen += 1;
        match mark_after(progress.mark, byte) {
            Some(mark) => progress.mark = mark,
            None => return Some(progress.seen),
        }
    }
    None
}

/// How many lines a head has.
#[tactic(auto, unfolding(crate::specs::Ends::lines_of))]
pub(crate) fn count_lines(head: &[u8]) -> usize
    ensures { result ≡ lines_of head.now }
{
    let mut blank = true;
    let mut lines = 0;
    for byte in head {
        match *byte {
            b'\r' => {}
            b'\n' if blank => {}
            b'\n' => lines += 1,
            _ => blank = false,
        }
    }
    lines
}
