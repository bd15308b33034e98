ghost use Rattle.std.specs.Prelude.{◌≡◌};
ghost use Rattle.wb_viewpoint.specs.View.{trees_of};

use crate::expression_texts::ExpressionText;
use sqlite_items::Items;
use std::marker::Model;
use wb_json::Name;

/// What an operation of a tool does.
pub enum Action {
    /// Takes what an expression gives for the context of the operations inside.
    ChangeContext {
        browse: ExpressionText,
    },
    /// Makes an object, which is the context and the variable of the operations inside.
    CreateInstance {
        reference: Name,
        class: Name,
        variable: Name,
    },
    Set {
        feature: Name,
        value: ExpressionText,
    },
    /// Without a value all of them are taken.
    Unset {
        feature: Name,
        value: Option<ExpressionText>,
    },
    Move {
        to: ExpressionText,
        reference: Name,
    },
    Remove,
    /// Does the operations inside for each item.
    For {
        items: ExpressionText,
        iterator: Name,
    },
    /// Does the operations inside where a condition holds.
    If {
        condition: ExpressionText,
    },
}

impl Drop for Action {
    fn drop(self) {
        match self {
            Action::ChangeContext { browse: _browse } => {}
            Action::CreateInstance {
                reference: _reference,
                class: _class,
                variable: _variable,
            } => {}
            Action::Set {
                feature: _feature,
                value: _value,
            } => {}
            Action::Unset {
                feature: _feature,
                value: _value,
            } => {}
            Action::Move {
                to: _to,
                reference: _reference,
            } => {}
            Action::Remove => {}
            Action::For {
                items: _items,
                iterator: _iterator,
            } => {}
            Action::If {
                condition: _condition,
            } => {}
        }
    }
}

/// An operation of a tool, and those inside it.
pub struct Operation {
    /// Its number: a tool's operations are numbered from 1, each before those inside it.
    pub number: u32,
    pub action: Action,
    /// Empty where the action has no operations inside.
    pub inside: Items<Operation>,
}

impl Drop for Operation {
    fn drop(self) {
        let Operation {
            number: _,
            action: _action,
            inside,
        } = self;
        drop(inside);
    }
}

/// The operations of a tool, in order. Contracts see them as trees.
#[derive(Drop)]
pub struct Operations {
    operations: Items<Operation>,
}

impl Model for Operations {
    ghost use Rattle.wb_viewpoint.specs.OperationTrees.{Trees};
    ghost use Rattle.wb_viewpoint.specs.View.{trees_of};
    ghost use Rattle.wb_viewpoint.specs.Codes.{coded_trees};

    ghost Value = { Trees };

    ghost coded = { coded_trees };

    ghost view = { λ o. trees_of o.operations };
}

impl Operations {
    pub(crate) fn new(operations: Items<Operation>) -> Operations
        ensures { result ≡ trees_of operations }
    {
        Operations { operations }
    }

    pub fn as_slice(&self) -> &[Operation]
        ensures { trees_of result.now ≡ self.now }
    {
        self.operations.as_slice()
    }
}
