//! The arguments of a tool that are there.
use crate::parts::{push_key, push_key_or_null, push_text};
use std::alloc::AllocError;
use wb_diagram::{AnyKey, Arguments, End};

pub fn push_arguments(shown: &mut String, arguments: &Arguments) -> Result<(), AllocError> {
    push_place(shown, "container", arguments.container.as_ref())?;
    push_keys(shown, arguments)?;
    if let Some(text) = &arguments.arg0 {
        shown.push_str("; arg0 ")?;
        push_text(shown, text)?;
    }
    push_end(shown, arguments.end)?;
    push_place(shown, "to", arguments.to.as_ref())
}

fn push_keys(shown: &mut String, arguments: &Arguments) -> Result<(), AllocError> {
    push_argument(shown, "source", arguments.source.as_ref())?;
    push_argument(shown, "target", arguments.target.as_ref())?;
    push_argument(shown, "element", arguments.element.as_ref())
}

fn push_argument(shown: &mut String, name: &str, key: Option<&AnyKey>) -> Result<(), AllocError> {
    match key {
        Some(key) => {
            write!(shown, "; {name} ")?;
            push_key(shown, key)
        }
        None => Ok(()),
    }
}

fn push_place(
    shown: &mut String,
    name: &str,
    place: Option<&Option<AnyKey>>,
) -> Result<(), AllocError> {
    match place {
        Some(key) => {
            write!(shown, "; {name} ")?;
            push_key_or_null(shown, key.as_ref())
        }
        None => Ok(()),
    }
}

fn push_end(shown: &mut String, end: Option<End>) -> Result<(), AllocError> {
    match end {
        Some(End::Source) => shown.push_str("; end source"),
        Some(End::Target) => shown.push_str("; end target"),
        None => Ok(()),
    }
}
