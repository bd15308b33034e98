ghost use Rattle.std.specs.Prelude.{◌≡◌, slice_get};
ghost use Rattle.std.specs.Option.{option_copied};
ghost use Rattle.wb_spec_check.specs.Units.{expression_at_place, operation_at_place, tool_expression, class_of_operation};

use crate::checked_tools::{CheckedOperation, CheckedTool};
use crate::checked_viewpoint::CheckedViewpoint;
use wb_expressions::Checked;
use wb_metamodel::ClassId;

impl CheckedViewpoint {
    /// The expression of a tool at a place: 0 is its precondition, and its operations have their numbers from 1 on,
    /// each before those inside it.
    #[tactic(auto, unfolding(crate::specs::Units::tool_expression))]
    pub fn tool_expression(&self, tool: u32, place: u32) -> Option<&Checked>
        ensures { option_copied result ≡ tool_expression self.now tool place }
    {
        expression_at_place(self.tool(tool)?, place)
    }

    /// The class of the objects that an operation makes.
    #[tactic(auto, unfolding(crate::specs::Units::class_of_operation))]
    pub fn class_of_operation(&self, tool: u32, place: u32) -> Option<ClassId>
        ensures { result ≡ class_of_operation self.now tool place }
    {
        operation_at_place(self.tool(tool)?, place)?.class
    }

    fn tool(&self, number: u32) -> Option<&CheckedTool>
        ensures { option_copied result ≡ slice_get self.now.1.tools number }
    {
        self.parts().tools.as_slice().get(number as usize)
    }
}

fn expression_at_place(tool: &CheckedTool, place: u32) -> Option<&Checked>
    ensures { option_copied result ≡ expression_at_place tool.now place }
{
    if place == 0 {
        return tool.precondition.as_ref();
    }
    operation_at_place(tool, place)?.expression.as_ref()
}

/// The operation at a place, counted from 1.
fn operation_at_place(tool: &CheckedTool, place: u32) -> Option<&CheckedOperation>
    ensures { option_copied result ≡ operation_at_place tool.now place }
{
    let index = place.checked_sub(1)?;
    tool.operations.as_slice().get(index as usize)
}
