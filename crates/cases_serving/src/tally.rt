//! A machine that counts from 0 to 9, and keeps its count as one row.
ghost use Rattle.std.specs.Prelude.{◌≡◌, ◌<◌, ◌≤◌, ◌∷◌, [], ℕ, IfOk, None, bytes_eq, codes};
ghost use Rattle.wb_http.specs.Replies.{response};
ghost use Rattle.wb_http.specs.declared.routes.Route.TheVariants.{Command};
ghost use Rattle.wb_outer.specs.Keeper.{changed};
ghost use Rattle.wb_keepers.specs.MemoryKeepers.{memory_told};
ghost use Rattle.wb_serving.specs.Machines.{Answers};
ghost use Rattle.cases_serving.specs.Tallies.{Says, IsKept, Adds, digit_of, rows_of, tally_law, tally_told};

use std::alloc::{AllocError, Global};
use wb_http::{FixedReply, Route, write_response};
use wb_keepers::MemoryKeeper;
use wb_outer::{Bytes, Committed, Keeper, Row, RowChange};
use wb_serving::{Answer, Machine};

/// A count, and its keeper.
#[derive(Drop)]
pub struct Tally {
    pub total: u8,
    pub keeper: MemoryKeeper,
}

// The reply with this status and body.
fn say(alloc: Global, status: u16, close: bool, body: &[u8]) -> Answer
    requires { (100 ≤ status) × (status < 1000) }
    ensures { Says (response status None close body.now) result }
{
    match write_response(alloc, status, None, close, body) {
        Ok(text) => Answer::Made(text),
        Err(_) => Answer::NoMemory,
    }
}

fn digit(total: u8) -> u8
    ensures { result ∷ [] ≡ digit_of total }
{
    b'0' + total % 10
}

// The change that leads to the row of a count.
fn change_to(alloc: Global, total: u8) -> Result<RowChange, AllocError>
    ensures { IfOk result (λ change. (s : ℕ) → changed (change ∷ []) (rows_of s) ≡ rows_of total) }
{
    Ok(RowChange::Put(Row {
        key: Bytes::from_slice(alloc, b"total")?,
        text: Bytes::from_slice(alloc, &[digit(total)])?,
    }))
}

// Keeps the row of a count.
fn keep(alloc: Global, keeper: &mut MemoryKeeper, total: u8) -> Committed
    ensures { IsKept (memory_told keeper.old) (memory_told keeper.new) total result }
{
    match change_to(alloc, total) {
        Ok(change) => keeper.commit(alloc, &[change]),
        Err(_) => Committed::NoMemory,
    }
}

// Is one more asked for?
fn is_add(body: &[u8]) -> bool
    ensures { result ≡ bytes_eq body.now (codes "+") }
{
    body == b"+".as_slice()
}

impl Tally {
    fn show(&mut self, alloc: Global, route: &Route, body: &[u8], close: bool) -> Answer
        requires { route.now ≡ Command → ⊥ }
        ensures { Answers tally_law (tally_told self.old) (tally_told self.new) route.now body.now close result }
    {
        match route {
            Route::Diagram => say(alloc, 200, close, &[digit(self.total)]),
            Route::Element(_) => {
                say(
                    alloc,
                    404,
                    close,
                    FixedReply::UnknownElement.text().as_bytes(),
                )
            }
            _ => say(alloc, 200, close, &[]),
        }
    }

    // Counts one more. The reply is made first.
    fn add(&mut self, alloc: Global, close: bool) -> Answer
        requires { self.old.total < 9 }
        ensures { Adds (tally_told self.old) (tally_told self.new) close result }
    {
        let total = self.total + 1;
        match write_response(alloc, 200, None, close, &[digit(total)]) {
            Ok(text) => match keep(alloc, &mut self.keeper, total) {
                Committed::Done => {
                    self.total = total;
                    Answer::Made(text)
                }
                Committed::Failed => Answer::Unkept,
                Committed::NoMemory => Answer::NoMemory,
            },
            Err(_) => Answer::NoMemory,
        }
    }

    fn command(&mut self, alloc: Global, body: &[u8], close: bool) -> Answer
        ensures { Answers tally_law (tally_told self.old) (tally_told self.new) Command body.now close result }
    {
        if !is_add(body) {
            say(alloc, 400, close, FixedReply::BadBody.text().as_bytes())
        } else if self.total >= 9 {
            say(alloc, 422, close, b"full")
        } else {
            self.add(alloc, close)
        }
    }
}

impl Machine for Tally {
    ghost State = { ℕ };

    ghost law = { tally_law };

    ghost told = { tally_told };

    fn answer(&mut self, alloc: Global, route: &Route, body: &[u8], close: bool) -> Answer {
        match route {
            Route::Command => self.command(alloc, body, close),
            _ => self.show(alloc, route, body, close),
        }
    }
}
