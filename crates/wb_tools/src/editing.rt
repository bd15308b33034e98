ghost use Rattle.std.specs.Prelude.{◌≡◌, IfOk};
ghost use Rattle.wb_model.specs.GivenEdits.{EditIsKnown, edit_of};
ghost use Rattle.wb_tools.specs.Doings.{edited};
ghost use Rattle.wb_tools.specs.FeatureEdits.{edit_by};
ghost use Rattle.wb_tools.specs.Runs.{Counts, Outcomes, Went, edit_at, made, run, work};
ghost use Rattle.wb_tools.specs.declared.tally.Tally.{Tally as Counts_so_far};

use crate::refusals::ToolRefusal;
use crate::tally::Tally;
use std::alloc::Global;
use wb_model::{ChangeList, Edit, Model, ModelRefusal, given_edits_are_edits};

const EDITS: u32 = 10000;

/// An edit is counted, unless it is one too many.
fn count_edit(tally: &mut Tally) -> Result<(), ToolRefusal>
    ensures { Counts result tally.old tally.new }
{
    if tally.edits >= EDITS {
        return Err(ToolRefusal::ToolTooLong);
    }
    tally.edits += 1;
    Ok(())
}

/// An edit, which is counted unless it is one too many. What is no edit is counted and refused. Answers the number that was next before it.
pub fn edit(
    alloc: Global,
    place: u32,
    change: Result<Edit, ModelRefusal>,
    model: &mut Model,
    tally: &mut Tally,
) -> Result<u32, ToolRefusal>
    requires { IfOk change (EditIsKnown model.old.metamodel) }
    ensures done { (out : Outcomes) → Went (run out (edited place change) (work model.old tally.old)) result model.new tally.new }
    ensures counted { tally.new.expressions ≡ tally.old.expressions }
    ensures same { model.new.metamodel ≡ model.old.metamodel }
{
    count_edit(tally)?;
    make(alloc, place, change, model)
}

// An edit without its count.
fn make(
    alloc: Global,
    place: u32,
    change: Result<Edit, ModelRefusal>,
    model: &mut Model,
) -> Result<u32, ToolRefusal>
    requires { IfOk change (EditIsKnown model.old.metamodel) }
    ensures done { (t : Counts_so_far) → Went (edit_at place model.old.next (made change model.old) t) result model.new t }
    ensures same { model.new.metamodel ≡ model.old.metamodel }
{
    match change {
        Ok(change) => make_known(alloc, place, change, model),
        Err(refusal) => Err(ToolRefusal::Model(place, refusal)),
    }
}

fn make_known(
    alloc: Global,
    place: u32,
    change: Edit,
    model: &mut Model,
) -> Result<u32, ToolRefusal>
    requires { EditIsKnown model.old.metamodel change }
    ensures done { (t : Counts_so_far) → Went (edit_at place model.old.next (edit_of change model.old) t) result model.new t }
    ensures same { model.new.metamodel ≡ model.old.metamodel }
{
    given_edits_are_edits();
    let next = model.next();
    match model.edit(alloc, change, &mut ChangeList::new()) {
        Ok(_) => Ok(next),
        Err(refusal) => Err(ToolRefusal::Model(place, refusal)),
    }
}

/// An edit, of which the number is not asked.
pub fn edit_by(
    alloc: Global,
    place: u32,
    change: Result<Edit, ModelRefusal>,
    model: &mut Model,
    tally: &mut Tally,
) -> Result<(), ToolRefusal>
    requires { IfOk change (EditIsKnown model.old.metamodel) }
    ensures done { (out : Outcomes) → Went (run out (edit_by place change) (work model.old tally.old)) result model.new tally.new }
    ensures counted { tally.new.expressions ≡ tally.old.expressions }
    ensures same { model.new.metamodel ≡ model.old.metamodel }
{
    edit(alloc, place, change, model, tally)?;
    Ok(())
}
