ghost use Rattle.std.specs.Prelude.{◌≡◌, ◌+◌, IfOk, option_map, codes};
ghost use Rattle.serde_json.specs.View.{view, items_view};
ghost use Rattle.serde_json.specs.Find.{get};
ghost use Rattle.wb_json.specs.Form.{Gives};
ghost use Rattle.wb_json.specs.Place.{at_index};
ghost use Rattle.wb_viewpoint.specs.OperationForms.{head_of, inside, operation_of, operations_of, operations_from};
ghost use Rattle.wb_viewpoint.specs.OperationTrees.{operation, count, count_all};
ghost use Rattle.wb_viewpoint.specs.View.{tree_of, trees_of};
ghost use Rattle.wb_viewpoint.specs.Answers.{GivesTree, GivesTrees};

use crate::actions::read_action;
use crate::operation_kinds::OperationKind;
use crate::operations::{Action, Operation};
use sqlite_items::Items;
use std::alloc::Global;
use wb_json::{Value, Wrong, needed};

/// An operation without those inside.
pub(crate) struct Head {
    pub action: Action,
    pub needs_inside: bool,
}

impl Drop for Head {
    fn drop(self) {
        let Head {
            action: _action,
            needs_inside: _,
        } = self;
    }
}

impl Head {
    /// The operation of this number, with those inside.
    fn operation(self, number: u32, inside: Items<Operation>) -> Operation
        ensures { tree_of result ≡ operation number self.action (trees_of inside) }
    {
        let Head {
            action,
            needs_inside: _,
        } = self;
        Operation {
            number,
            action,
            inside,
        }
    }
}

#[tactic(auto, unfolding(crate::specs::OperationForms::head_of))]
fn read_head(alloc: Global, value: &Value) -> Result<Head, Wrong>
    ensures { Gives result (head_of (view value.now)) }
{
    let kind: OperationKind = needed(alloc, value, "op")?;
    Ok(Head {
        action: read_action(alloc, value, kind)?,
        needs_inside: kind.needs_inside(),
    })
}

/// Reads an operation, which gets the next number. A number that no `u32` holds is taken as want of memory.
#[cycle(operations)]
fn read_operation(alloc: Global, value: &Value, next: &mut u32) -> Result<Operation, Wrong>
    ensures found { GivesTree result (operation_of next.old (view value.now)) }
    ensures counted { IfOk result (λ o. next.new ≡ next.old + count (tree_of o)) }
{
    let head = read_head(alloc, value)?;
    let number = *next;
    let Some(after) = number.checked_add(1) else {
        return Err(Wrong::NoMemory);
    };
    *next = after;
    let inside = read_inside(alloc, value, head.needs_inside, next)?;
    Ok(head.operation(number, inside))
}

/// Reads the operations at an object's `do`.
#[cycle(operations)]
pub(crate) fn read_inside(
    alloc: Global,
    value: &Value,
    is_needed: bool,
    next: &mut u32,
) -> Result<Items<Operation>, Wrong>
    ensures found { GivesTrees result (inside is_needed (option_map (operations_of next.old) (get (codes "do") (view value.now)))) }
    ensures counted { IfOk result (λ os. next.new ≡ next.old + count_all (trees_of os)) }
{
    match value.get("do") {
        Some(part) => match read_operations(alloc, part, next) {
            Ok(operations) => Ok(operations),
            Err(wrong) => Err(wrong.in_member(alloc, "do")),
        },
        None if is_needed => Err(Wrong::here(alloc)),
        None => Ok(Items::new(alloc)),
    }
}

#[cycle(operations)]
fn read_operations(alloc: Global, value: &Value, next: &mut u32) -> Result<Items<Operation>, Wrong>
    ensures found { GivesTrees result (operations_of next.old (view value.now)) }
    ensures counted { IfOk result (λ os. next.new ≡ next.old + count_all (trees_of os)) }
{
    match value.as_array() {
        Some(values) => read_items(alloc, values.as_slice(), next),
        None => Err(Wrong::here(alloc)),
    }
}

#[cycle(operations)]
fn read_items(alloc: Global, values: &[Value], next: &mut u32) -> Result<Items<Operation>, Wrong>
    ensures found { GivesTrees result (operations_from next.old 0 (items_view values.now)) }
    ensures counted { IfOk result (λ os. next.new ≡ next.old + count_all (trees_of os)) }
{
    let mut operations = Items::new(alloc);
    for (index, value) in values.iter().enumerate() {
        operations.push(read_item(alloc, index, value, next)?)?;
    }
    Ok(operations)
}

#[cycle(operations)]
fn read_item(alloc: Global, index: usize, value: &Value, next: &mut u32) -> Result<Operation, Wrong>
    ensures found { GivesTree result (at_index index (operation_of next.old (view value.now))) }
    ensures counted { IfOk result (λ o. next.new ≡ next.old + count (tree_of o)) }
{
    match read_operation(alloc, value, next) {
        Ok(operation) => Ok(operation),
        Err(wrong) => Err(wrong.in_item(alloc, index)),
    }
}
