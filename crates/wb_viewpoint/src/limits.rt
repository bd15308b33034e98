ghost use Rattle.std.specs.Prelude.{◌≡◌, ◌≤◌, ◌-◌, nat_le};
ghost use Rattle.std.specs.List.{list_all};
ghost use Rattle.std.specs.Option.{SomeIff};
ghost use Rattle.wb_viewpoint.specs.Limits.{is_small, has_few_parts, has_few_styles, has_few_operations};
ghost use Rattle.wb_viewpoint.specs.OperationTrees.{count, count_all, nesting, nesting_all};
ghost use Rattle.wb_viewpoint.specs.View.{tree_of, trees_of};

use crate::content::Content;
use crate::mappings::Mapping;
use crate::operations::Operation;
use crate::tools::Tool;

/// Is a viewpoint within all limits?
#[tactic(auto, unfolding(crate::specs::Limits::is_small))]
pub(crate) fn is_small(content: &Content) -> bool
    ensures { result ≡ is_small content.now }
{
    has_few_parts(content)
        && have_few_styles(content.mappings.as_slice())
        && have_few_operations(content.tools.as_slice())
}

fn has_few_parts(content: &Content) -> bool
    ensures { result ≡ has_few_parts content.now }
{
    content.mappings.len() <= 256
        && content.layers.as_slice().len() <= 64
        && content.filters.len() <= 64
        && content.tools.len() <= 256
}

fn have_few_styles(mappings: &[Mapping]) -> bool
    ensures { result ≡ list_all has_few_styles mappings.now }
{
    mappings.iter().all(has_few_styles)
}

fn has_few_styles(mapping: &Mapping) -> bool
    ensures { result ≡ has_few_styles mapping.now }
{
    mapping.looks.styles.len() <= 32
}

fn have_few_operations(tools: &[Tool]) -> bool
    ensures { result ≡ list_all has_few_operations tools.now }
{
    tools.iter().all(has_few_operations)
}

fn has_few_operations(tool: &Tool) -> bool
    ensures { result ≡ has_few_operations tool.now }
{
    let operations = tool.operations.as_slice();
    room_after(operations, 256).is_some() && nest_within(operations, 16)
}

/// The room that operations leave, where there is room for them.
#[cycle(room)]
fn room_after(operations: &[Operation], room: u32) -> Option<u32>
    ensures { SomeIff result (count_all (trees_of operations.now) ≤ room) (room - count_all (trees_of operations.now)) }
{
    let mut left = room;
    for operation in operations {
        left = room_behind(operation, left)?;
    }
    Some(left)
}

/// The room that an operation and those inside leave.
#[cycle(room)]
#[tactic(auto, using(crate::proofs::Trees::count_out))]
fn room_behind(operation: &Operation, room: u32) -> Option<u32>
    ensures { SomeIff result (count (tree_of operation.now) ≤ room) (room - count (tree_of operation.now)) }
{
    room_after(operation.inside.as_slice(), room.checked_sub(1)?)
}

/// Do operations nest at most this deep?
#[cycle(nesting)]
fn nest_within(operations: &[Operation], levels: u32) -> bool
    ensures { result ≡ nat_le (nesting_all (trees_of operations.now)) levels }
{
    for operation in operations {
        if !nests_within(operation, levels) {
            return false;
        }
    }
    true
}

/// Do an operation and those inside nest at most this deep?
#[cycle(nesting)]
#[tactic(auto, using(crate::proofs::Trees::nesting_out))]
fn nests_within(operation: &Operation, levels: u32) -> bool
    ensures { result ≡ nat_le (nesting (tree_of operation.now)) levels }
{
    levels > 0 && nest_within(operation.inside.as_slice(), levels - 1)
}
