ghost use Rattle.std.specs.Prelude.{◌≡◌, ◌+◌};

use std::marker::{Model, PhantomData};
use std::snapshot::Snapshot;

/// A number that only contracts see: nothing of it is kept where the program runs, so that it never reaches an end.
/// The label keeps the counts of two counters apart.
#[derive(Drop)]
pub struct Steps<L> {
    ticks: Ticks,
    label: PhantomData<L>,
}

impl<L> Model for Steps<L> {
    ghost use Rattle.std.specs.Prelude.{ℕ};

    ghost Value = { ℕ };

    ghost view = { λ s. s.ticks };
}

impl<L> Steps<L> {
    /// No step was made yet.
    pub fn new() -> Steps<L>
        ensures { result ≡ 0 }
    {
        Steps {
            ticks: Ticks { last: Tick::None },
            label: PhantomData,
        }
    }

    /// One step more.
    pub fn tick(&mut self)
        ensures { self.new ≡ self.old + 1 }
    {
        let earlier = Snapshot::of(&self.ticks);
        self.ticks = Ticks {
            last: Tick::After(earlier),
        };
    }
}

// The ticks so far: none, or one after those of a moment before.
#[cycle(ticks)]
#[derive(Drop)]
struct Ticks {
    last: Tick,
}

#[cycle(ticks)]
#[derive(Drop)]
enum Tick {
    None,
    After(Snapshot<Ticks>),
}

impl Model for Ticks {
    ghost use Rattle.std.specs.Prelude.{ℕ};

    ghost Value = { ℕ };

    ghost use Rattle.wb_outer.specs.Ticks.{ticks};

    ghost view = { λ t. ticks t.last };

    ghost size = { λ n. n };

    ghost use Rattle.std.proofs.Common.{arith};

    ghost size_decreases = { λ a h. Prim.grind arith };
}
