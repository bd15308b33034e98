ghost use Rattle.serde_json.specs.View.{view};
ghost use Rattle.wb_json.specs.Form.{Gives};
ghost use Rattle.wb_viewpoint.specs.OperationForms.{done_of};

use crate::expression_texts::ExpressionText;
use crate::operation_reader::read_inside;
use crate::operations::Operations;
use std::alloc::Global;
use wb_json::{Form, Name, Value, Wrong, chosen, listed, needed, optional};

/// What a tool is used on.
#[derive(Clone, Copy, Debug, PartialEq, Eq)]
pub enum ToolKind {
    NodeCreation,
    EdgeCreation,
    Delete,
    DirectEdit,
    Reconnect,
    Drop,
}

/// A tool, which changes the model.
pub struct Tool {
    pub name: Name,
    pub kind: ToolKind,
    pub precondition: Option<ExpressionText>,
    pub operations: Operations,
}

impl Drop for Tool {
    fn drop(self) {
        let Tool {
            name: _name,
            kind: _,
            precondition: _precondition,
            operations: _operations,
        } = self;
    }
}

impl Form for ToolKind {
    ghost use Rattle.wb_viewpoint.specs.OperationForms.{tool_kind_of};

    ghost form = { tool_kind_of };

    fn read(alloc: Global, value: &Value) -> Result<ToolKind, Wrong> {
        chosen(
            alloc,
            value,
            &[
                ("node_creation", ToolKind::NodeCreation),
                ("edge_creation", ToolKind::EdgeCreation),
                ("delete", ToolKind::Delete),
                ("direct_edit", ToolKind::DirectEdit),
                ("reconnect", ToolKind::Reconnect),
                ("drop", ToolKind::Drop),
            ],
        )
    }
}

impl Form for Tool {
    ghost use Rattle.wb_viewpoint.specs.OperationForms.{tool_of};

    ghost form = { tool_of };

    #[tactic(auto, unfolding(crate::specs::OperationForms::tool_of))]
    fn read(alloc: Global, value: &Value) -> Result<Tool, Wrong> {
        listed(alloc, value, &["name", "kind", "precondition", "do"])?;
        let name = needed(alloc, value, "name")?;
        let kind = needed(alloc, value, "kind")?;
        let precondition = optional(alloc, value, "precondition")?;
        let operations = read_done(alloc, value)?;
        Ok(Tool {
            name,
            kind,
            precondition,
            operations,
        })
    }
}

/// The operations that a tool does.
#[tactic(auto, unfolding(crate::specs::OperationForms::done_of))]
fn read_done(alloc: Global, value: &Value) -> Result<Operations, Wrong>
    ensures { Gives result (done_of (view value.now)) }
{
    let mut next = 1;
    match read_inside(alloc, value, true, &mut next) {
        Ok(operations) => Ok(Operations::new(operations)),
        Err(wrong) => Err(wrong),
    }
}
