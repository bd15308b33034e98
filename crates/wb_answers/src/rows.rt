use wb_aql_eval::Outcome;
use wb_diagram::Unit;

/// A unit with its outcome: its answer, and the cells that were read for it.
pub struct Row {
    pub unit: Unit,
    pub outcome: Outcome,
}

impl Drop for Row {
    fn drop(self) {
        let Row {
            unit: _unit,
            outcome: _outcome,
        } = self;
    }
}
