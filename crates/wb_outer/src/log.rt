ghost use Rattle.std.specs.Prelude.{◌≡◌, [], ◌∷◌, ◌++◌};

use std::marker::Model;
use std::snapshot::Snapshot;

/// A list that only contracts see: nothing of it is kept where the program runs, so that it takes no memory.
#[cycle(log)]
pub struct Log<E> {
    last: Entry<E>,
}

impl<E> Drop for Log<E> {
    fn drop(self) {
        let Log { last: _last } = self;
    }
}

// The entries so far: none, or one behind those of a moment before.
#[cycle(log)]
#[derive(Drop)]
enum Entry<E> {
    None,
    After(Snapshot<Log<E>>, Snapshot<E>),
}

impl<E> Model for Log<E> {
    ghost use Rattle.std.specs.Prelude.{List};

    ghost Value = { List E };

    ghost use Rattle.std.specs.Prelude.{length};
    ghost use Rattle.wb_outer.specs.Logs.{entries};

    ghost view = { λ l. entries l.last };

    ghost size = { length };

    ghost use Rattle.std.proofs.Common.{arith, length-append};

    ghost size_decreases = { λ a h. Prim.grind (arith, length-append) };
}

impl<E> Log<E> {
    pub fn new() -> Log<E>
        ensures { result ≡ [] }
    {
        Log { last: Entry::None }
    }

    /// One entry more.
    pub fn note(&mut self, entry: &E)
        ensures { self.new ≡ self.old ++ entry.now ∷ [] }
    {
        let earlier = Snapshot::of(&*self);
        *self = Log {
            last: Entry::After(earlier, Snapshot::of(entry)),
        };
    }

    /// These entries more, in their order.
    pub fn note_all(&mut self, entries: &[E])
        ensures { self.new ≡ self.old ++ entries.now }
    {
        for entry in entries {
            self.note(entry);
        }
    }

    /// A log of these entries.
    pub fn of(entries: &[E]) -> Log<E>
        ensures { result ≡ entries.now }
    {
        let mut log = Log::new();
        log.note_all(entries);
        log
    }
}
