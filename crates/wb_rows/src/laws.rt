//! What is true of all rows. These functions do nothing when they run.

ghost use Rattle.wb_spec_check.specs.Checked.{Specification};
ghost use Rattle.wb_rows.specs.States.{rows_of};
ghost use Rattle.wb_rows.specs.Texts.{Ascend};
ghost use Rattle.wb_rows.specs.declared.state.KeptState.{KeptState};

/// The rows of a state ascend by their keys, and no key stands twice.
pub fn rows_ascend()
    ensures { (spec : Specification) (s : KeptState) → Ascend (rows_of spec s) }
{}
