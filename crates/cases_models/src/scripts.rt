//! Scripts: each line is an edit of a model, or a look at it.
use crate::asked::{Asked, words_of};
use crate::edits::push_edit;
use crate::looks::push_look;
use crate::texts::push_text;
use std::alloc::{AllocError, Global};
use wb_model::Model;

/// Puts each line last with its answer; false where the script is not UTF-8.
pub fn push_bytes(
    alloc: Global,
    shown: &mut String,
    model: &mut Model,
    script: &[u8],
) -> Result<bool, AllocError> {
    match std::str::from_utf8(script) {
        Ok(script) => push_script(alloc, shown, model, script),
        Err(_) => Ok(false),
    }
}

fn push_script(
    alloc: Global,
    shown: &mut String,
    model: &mut Model,
    script: &str,
) -> Result<bool, AllocError> {
    for line in script.lines() {
        push_line(alloc, shown, model, line)?;
    }
    Ok(true)
}

/// `?` answers what is no line of a script.
fn push_line(
    alloc: Global,
    shown: &mut String,
    model: &mut Model,
    line: &str,
) -> Result<(), AllocError> {
    write!(shown, "{line} => ")?;
    if push_answer(alloc, shown, model, &words_of(line))? {
        return shown.push_str("\n");
    }
    shown.push_str("?\n")
}

fn push_answer(
    alloc: Global,
    shown: &mut String,
    model: &mut Model,
    asked: &Asked<'_>,
) -> Result<bool, AllocError> {
    match asked.name {
        "create" | "remove" | "unset" | "move" | "set" | "add" | "take" => {
            push_edit(alloc, shown, model, asked)
        }
        "readers" | "all" | "copy" | "empty" | "write" | "row" | "object" | "read" | "problem" => {
            push_text(alloc, shown, model, asked)
        }
        "repeat" => push_repeated(alloc, shown, model, asked),
        _ => push_look(alloc, shown, model, asked),
    }
}

/// `repeat 20000 create root - Desk`: the last answer of an edit that is asked for so often.
fn push_repeated(
    alloc: Global,
    shown: &mut String,
    model: &mut Model,
    asked: &Asked<'_>,
) -> Result<bool, AllocError> {
    let (Ok(times), Some((_, line))) = (asked.object.parse::<u32>(), asked.text.split_once(' '))
    else {
        return Ok(false);
    };
    let mut last = String::new(alloc);
    if !edit_often(alloc, &mut last, model, times, &words_of(line))? {
        return Ok(false);
    }
    shown.push_str(last.as_str())?;
    Ok(true)
}

fn edit_often(
    alloc: Global,
    last: &mut String,
    model: &mut Model,
    times: u32,
    asked: &Asked<'_>,
) -> Result<bool, AllocError> {
    for _ in 0..times {
        last.clear();
        if !push_edit(alloc, last, model, asked)? {
            return Ok(false);
        }
    }
    Ok(true)
}
