ghost use Rattle.serde_json.specs.View.{view};
ghost use Rattle.wb_json.specs.Form.{Gives};
ghost use Rattle.wb_viewpoint.specs.OperationForms.{action_of, change_context_of, create_instance_of, set_of, unset_of, move_of, remove_of, for_of, if_of};

use crate::operation_kinds::OperationKind;
use crate::operations::Action;
use std::alloc::Global;
use wb_json::{Value, Wrong, listed, needed, optional};

/// What an operation of this sort does.
#[tactic(auto, unfolding(crate::specs::OperationForms::action_of))]
pub(crate) fn read_action(
    alloc: Global,
    value: &Value,
    kind: OperationKind,
) -> Result<Action, Wrong>
    ensures { Gives result (action_of kind (view value.now)) }
{
    match kind {
        OperationKind::ChangeContext => read_change_context(alloc, value),
        OperationKind::CreateInstance => read_create_instance(alloc, value),
        OperationKind::Set => read_set(alloc, value),
        OperationKind::Unset => read_unset(alloc, value),
        OperationKind::Move => read_move(alloc, value),
        OperationKind::Remove => read_remove(alloc, value),
        OperationKind::For => read_for(alloc, value),
        OperationKind::If => read_if(alloc, value),
    }
}

fn read_change_context(alloc: Global, value: &Value) -> Result<Action, Wrong>
    ensures { Gives result (change_context_of (view value.now)) }
{
    listed(alloc, value, &["op", "browse", "do"])?;
    let browse = needed(alloc, value, "browse")?;
    Ok(Action::ChangeContext { browse })
}

fn read_create_instance(alloc: Global, value: &Value) -> Result<Action, Wrong>
    ensures { Gives result (create_instance_of (view value.now)) }
{
    listed(
        alloc,
        value,
        &["op", "reference", "class", "variable", "do"],
    )?;
    let reference = needed(alloc, value, "reference")?;
    let class = needed(alloc, value, "class")?;
    let variable = needed(alloc, value, "variable")?;
    Ok(Action::CreateInstance {
        reference,
        class,
        variable,
    })
}

fn read_set(alloc: Global, value: &Value) -> Result<Action, Wrong>
    ensures { Gives result (set_of (view value.now)) }
{
    listed(alloc, value, &["op", "feature", "value"])?;
    let feature = needed(alloc, value, "feature")?;
    let value = needed(alloc, value, "value")?;
    Ok(Action::Set { feature, value })
}

fn read_unset(alloc: Global, value: &Value) -> Result<Action, Wrong>
    ensures { Gives result (unset_of (view value.now)) }
{
    listed(alloc, value, &["op", "feature", "value"])?;
    let feature = needed(alloc, value, "feature")?;
    let value = optional(alloc, value, "value")?;
    Ok(Action::Unset { feature, value })
}

fn read_move(alloc: Global, value: &Value) -> Result<Action, Wrong>
    ensures { Gives result (move_of (view value.now)) }
{
    listed(alloc, value, &["op", "to", "reference"])?;
    let to = needed(alloc, value, "to")?;
    let reference = needed(alloc, value, "reference")?;
    Ok(Action::Move { to, reference })
}

fn read_remove(alloc: Global, value: &Value) -> Result<Action, Wrong>
    ensures { Gives result (remove_of (view value.now)) }
{
    listed(alloc, value, &["op"])?;
    Ok(Action::Remove)
}

fn read_for(alloc: Global, value: &Value) -> Result<Action, Wrong>
    ensures { Gives result (for_of (view value.now)) }
{
    listed(alloc, value, &["op", "items", "iterator", "do"])?;
    let items = needed(alloc, value, "items")?;
    let iterator = needed(alloc, value, "iterator")?;
    Ok(Action::For { items, iterator })
}

fn read_if(alloc: Global, value: &Value) -> Result<Action, Wrong>
    ensures { Gives result (if_of (view value.now)) }
{
    listed(alloc, value, &["op", "condition", "do"])?;
    let condition = needed(alloc, value, "condition")?;
    Ok(Action::If { condition })
}
