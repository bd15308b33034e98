use wb_base::List;
use wb_expressions::Checked;
use wb_metamodel::ClassId;

/// What an operation names, and its expression.
pub struct CheckedOperation {
    /// The class of the objects that it makes.
    pub class: Option<ClassId>,
    pub expression: Option<Checked>,
}

impl Drop for CheckedOperation {
    fn drop(self) {
        let CheckedOperation {
            class: _,
            expression: _expression,
        } = self;
    }
}

/// A tool, with its operations in one list, each before those inside it.
pub struct CheckedTool {
    pub precondition: Option<Checked>,
    pub operations: List<CheckedOperation>,
}

impl Drop for CheckedTool {
    fn drop(self) {
        let CheckedTool {
            precondition: _precondition,
            operations: _operations,
        } = self;
    }
}
