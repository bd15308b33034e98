ghost use Rattle.std.specs.Prelude.{◌≡◌, ◌∷◌, [], ◌++◌, map, IfOk};
ghost use Rattle.wb_spec_check.specs.Scopes.{scope_inside, tool_scope};
ghost use Rattle.wb_spec_check.specs.invariants.InnerScopes.{variables_of};

use crate::scope_texts::scope_of;
use std::alloc::{AllocError, Global};
use wb_base::{Duplicate, List, Text};
use wb_json::Name;
use wb_viewpoint::{Action, ToolKind};

/// The variables of a tool, by its kind.
pub(crate) fn tool_scope(alloc: Global, kind: ToolKind) -> Result<List<Text>, AllocError>
    ensures { IfOk result (λ scope. scope ≡ tool_scope kind) }
{
    scope_of(alloc, tool_variables(kind))
}

#[tactic(auto, unfolding(crate::specs::Scopes::tool_scope))]
fn tool_variables(kind: ToolKind) -> &'static [&'static str]
    ensures { map (λ name. name.now) result.now ≡ tool_scope kind }
{
    match kind {
        ToolKind::NodeCreation => &["self", "container"],
        ToolKind::EdgeCreation => &["self", "source", "target"],
        ToolKind::Delete => &["self", "element"],
        ToolKind::DirectEdit => &["self", "element", "arg0"],
        ToolKind::Reconnect => &["self", "element", "end", "oldEnd", "newEnd"],
        ToolKind::Drop => &["self", "element", "oldContainer", "newContainer"],
    }
}

fn copied(alloc: Global, variables: &[Text]) -> Result<List<Text>, AllocError>
    ensures { IfOk result (λ copies. copies ≡ variables.now) }
{
    let mut copies = List::new(alloc);
    for variable in variables {
        copies.push(variable.copy(alloc)?)?;
    }
    Ok(copies)
}

/// The variables in scope of the operations inside an operation.
pub(crate) enum InnerScope<'a> {
    /// Those around it.
    Same(&'a [Text]),
    /// Those around it, and one that it binds.
    More(List<Text>),
}

impl<'a> Drop for InnerScope<'a> {
    fn drop(self) {
        match self {
            InnerScope::Same(_) => {}
            InnerScope::More(_variables) => {}
        }
    }
}

impl<'a> InnerScope<'a> {
    /// The scope inside an operation, by the scope around it.
    pub(crate) fn new(
        alloc: Global,
        around: &'a [Text],
        action: &Action,
    ) -> Result<InnerScope<'a>, AllocError>
        ensures { IfOk result (λ inner. variables_of inner ≡ scope_inside around.now action.now) }
    {
        match action {
            Action::CreateInstance { variable, .. } => InnerScope::with(alloc, around, variable),
            Action::For { iterator, .. } => InnerScope::with(alloc, around, iterator),
            _ => Ok(InnerScope::Same(around)),
        }
    }

    fn with(alloc: Global, around: &[Text], name: &Name) -> Result<InnerScope<'a>, AllocError>
        ensures { IfOk result (λ inner. variables_of inner ≡ around.now ++ name.now ∷ []) }
    {
        let mut variables = copied(alloc, around)?;
        variables.push(Text::from_str(alloc, name.as_str())?)?;
        Ok(InnerScope::More(variables))
    }

    pub(crate) fn as_slice(&self) -> &[Text]
        ensures { result.now ≡ variables_of self.now }
    {
        match self {
            InnerScope::Same(variables) => variables,
            InnerScope::More(variables) => variables.as_slice(),
        }
    }
}
