use crate::keys::AnyKey;
use wb_base::Text;
use wb_metamodel::ObjectId;

/// A value that a command gives. A text is a literal where the feature's enumeration has it.
#[derive(Debug, Drop, PartialEq, Eq)]
pub enum Given {
    Int(i64),
    Bool(bool),
    Text(Text),
    Object(ObjectId),
}

/// A slot by the name of its feature.
#[derive(Debug, Drop, PartialEq, Eq)]
pub struct NamedSlot {
    pub object: ObjectId,
    pub feature: Text,
}

/// An end of an edge.
#[derive(Clone, Copy, Debug, PartialEq, Eq)]
pub enum End {
    Source,
    Target,
}

/// The arguments of a tool, as far as a command has them. A container, or where an element goes to, may be null, which is the
/// diagram; then the inner option is none.
#[derive(Debug, PartialEq, Eq)]
pub struct Arguments {
    pub container: Option<Option<AnyKey>>,
    pub source: Option<AnyKey>,
    pub target: Option<AnyKey>,
    pub element: Option<AnyKey>,
    pub arg0: Option<Text>,
    pub end: Option<End>,
    pub to: Option<Option<AnyKey>>,
}

impl Drop for Arguments {
    fn drop(self) {
        let Arguments {
            container: _container,
            source: _source,
            target: _target,
            element: _element,
            arg0: _arg0,
            end: _,
            to: _to,
        } = self;
    }
}

/// What a command asks for.
#[derive(Debug, PartialEq, Eq)]
pub enum Action {
    /// A new object of a class, last among the roots, or last in a slot of an object.
    Create {
        class: Text,
        slot: Option<NamedSlot>,
    },
    /// A slot becomes this value alone.
    Set {
        slot: NamedSlot,
        value: Given,
    },
    /// A value goes last in a slot, unless it is there.
    Add {
        slot: NamedSlot,
        value: Given,
    },
    /// A value leaves a slot.
    Take {
        slot: NamedSlot,
        value: Given,
    },
    /// A slot becomes empty.
    Unset {
        slot: NamedSlot,
    },
    /// An object goes last in a slot of another.
    MoveTo {
        object: ObjectId,
        slot: NamedSlot,
    },
    /// An object is deleted, with all that it contains.
    Remove {
        object: ObjectId,
    },
    /// A tool of the viewpoint runs.
    Tool {
        tool: Text,
        arguments: Arguments,
    },
    /// An element is placed, right and down from its parent.
    Move {
        key: AnyKey,
        x: i64,
        y: i64,
    },
    /// All elements that can be placed are laid on a grid.
    Arrange,
    Undo,
    Redo,
    /// A candidate of an unsynchronised mapping is marked shown, under an element or the diagram.
    Show {
        parent: Option<AnyKey>,
        mapping: Text,
        object: ObjectId,
    },
    /// A shown mark is dropped.
    Unshow {
        key: AnyKey,
    },
    /// An element or an edge is marked hidden.
    Hide {
        key: AnyKey,
    },
    /// A hidden mark is dropped.
    Reveal {
        key: AnyKey,
    },
    /// An additional layer is switched.
    Layer {
        layer: Text,
        active: bool,
    },
    /// A filter is switched.
    Filter {
        filter: Text,
        active: bool,
    },
}

impl Drop for Action {
    fn drop(self) {
        match self {
            Action::Create {
                class: _class,
                slot: _slot,
            } => {}
            Action::Set {
                slot: _slot,
                value: _value,
            } => {}
            Action::Add {
                slot: _slot,
                value: _value,
            } => {}
            Action::Take {
                slot: _slot,
                value: _value,
            } => {}
            Action::Unset { slot: _slot } => {}
            Action::MoveTo {
                object: _,
                slot: _slot,
            } => {}
            Action::Remove { object: _ } => {}
            Action::Tool {
                tool: _tool,
                arguments: _arguments,
            } => {}
            Action::Move {
                key: _key,
                x: _,
                y: _,
            } => {}
            Action::Arrange => {}
            Action::Undo => {}
            Action::Redo => {}
            Action::Show {
                parent: _parent,
                mapping: _mapping,
                object: _,
            } => {}
            Action::Unshow { key: _key } => {}
            Action::Hide { key: _key } => {}
            Action::Reveal { key: _key } => {}
            Action::Layer {
                layer: _layer,
                active: _,
            } => {}
            Action::Filter {
                filter: _filter,
                active: _,
            } => {}
        }
    }
}

/// A command, with the revision of the diagram that it was made for.
#[derive(Debug, PartialEq, Eq)]
pub struct Command {
    pub revision: u64,
    pub action: Action,
}

impl Drop for Command {
    fn drop(self) {
        let Command {
            revision: _,
            action: _action,
        } = self;
    }
}
