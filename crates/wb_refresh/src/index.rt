ghost use Rattle.std.specs.Prelude.{map, IfOk};
ghost use Rattle.wb_refresh.specs.Tables.{Indexes, row_with};

use indexmap::IndexMap;
use std::alloc::{AllocError, Global};
use wb_aql_eval::Outcome;
use wb_diagram::Unit;

/// Units with their outcomes, by unit.
pub fn index(
    alloc: Global,
    outcomes: Vec<(Unit, Outcome)>,
) -> Result<IndexMap<Unit, Outcome>, AllocError>
    ensures { IfOk result (λ index. Indexes (map row_with outcomes.items) index.entries) }
{
    let mut index = IndexMap::new(alloc);
    for (unit, outcome) in outcomes {
        index.insert(unit, outcome)?;
    }
    Ok(index)
}
