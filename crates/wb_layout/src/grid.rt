ghost use Rattle.std.specs.Prelude.{◌≡◌, ◌<◌, ◌↔◌, IsTrue};
ghost use Rattle.wb_layout.specs.Grid.{grid};
ghost use Rattle.wb_layout.specs.Positions.{IsInRange};

/// Can an element be put there?
pub fn is_in_range(x: i64, y: i64) -> bool
    ensures { IsTrue result ↔ IsInRange (x, y) }
{
    x.unsigned_abs() <= 1_000_000 && y.unsigned_abs() <= 1_000_000
}

// The k-th place of a grid.
pub(crate) fn grid(k: u32) -> (i64, i64)
    ensures { result ≡ grid k }
{
    (i64::from(k % 8) * 120, i64::from(k / 8) * 80)
}
