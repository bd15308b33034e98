ghost use Rattle.std.specs.Prelude.{◌≡◌};
ghost use Rattle.wb_outer.specs.Faults.{raised};

/// The next value of a count, which stands still at the end of its type.
pub fn raise(count: u64) -> u64
    ensures { result ≡ raised count }
{
    count.saturating_add(1)
}
