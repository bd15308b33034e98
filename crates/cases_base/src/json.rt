//! Values whose answers RFC 6901 and RFC 8259 give: the place of what is wrong, or a word for another outcome.
use crate::forms::{Figure, Library, Shelf};
use crate::shown::line;
use std::alloc::{AllocError, Global};
use wb_base::{List, Text};
use wb_json::{Form, Members, ToJson, Wrong, parse_json, to_text, write_json};

const LIBRARIES: [&str; 9] = [
    r#"{"name":"a","shelves":[{"label":"","books":["b","c"]},{"label":"x"}],"open":true}"#,
    r#"{"name":"a","shelves":[]}"#,
    "[]",
    r#"{"name":5}"#,
    r#"{"shelves":5}"#,
    r#"{"name":5,"zz":1,"a/b~":2}"#,
    r#"{"name":"a","shelves":[{"label":"","books":["b",1]}]}"#,
    r#"{"name":"a","shelves":[{"label":""},{"books":[]}]}"#,
    r#"{"name":"a","shelves":[],"open":null}"#,
];

const FIGURES: [&str; 4] = [
    r#"{"shape":"ellipse","label":"a"}"#,
    r#"{"shape":"round","other":1}"#,
    r#"{"shape":7}"#,
    r#"{"label":"a"}"#,
];

const MEMBERS: [&str; 3] = [
    r#"{"b":1,"a":2}"#,
    r#"{"a":-1,"2":2,"é":3}"#,
    r#"{"b":"x","a":"y"}"#,
];

const INTEGERS: [&str; 8] = [
    "-9223372036854775808",
    "9223372036854775807",
    "9223372036854775808",
    "-9223372036854775809",
    "-0",
    "1.0",
    "1e2",
    "1e999",
];

const COUNTS: [&str; 4] = ["4294967295", "4294967296", "-1", "null"];

const TEXTS: [&str; 5] = [
    r#""\u00e9 \ud83d\ude00""#,
    r#""\ud83d""#,
    "",
    "\u{feff}\"\"",
    "\"\" x",
];

pub fn push(alloc: Global, shown: &mut String) -> Result<(), AllocError> {
    push_read::<Library>(alloc, shown, &LIBRARIES)?;
    push_read::<Figure>(alloc, shown, &FIGURES)?;
    push_read::<Members<u32>>(alloc, shown, &MEMBERS)?;
    push_read::<i64>(alloc, shown, &INTEGERS)?;
    push_read::<Option<u32>>(alloc, shown, &COUNTS)?;
    push_read::<Text>(alloc, shown, &TEXTS)?;
    push_written(alloc, shown)
}

fn push_read<T: Form>(alloc: Global, shown: &mut String, texts: &[&str]) -> Result<(), AllocError> {
    for text in texts {
        let found = outcome::<T>(alloc, text.as_bytes())?;
        line(shown, *text, found.as_str())?;
    }
    Ok(())
}

fn outcome<T: Form>(alloc: Global, bytes: &[u8]) -> Result<Text, AllocError> {
    let Some(value) = parse_json(alloc, bytes)? else {
        return Text::from_str(alloc, "no JSON");
    };
    match T::read(alloc, &value) {
        Ok(_) => Text::from_str(alloc, "of the form"),
        Err(Wrong::At(place)) => Ok(place),
        Err(Wrong::NoMemory) => Err(AllocError),
    }
}

fn push_written(alloc: Global, shown: &mut String) -> Result<(), AllocError> {
    push_rewritten::<Shelf>(
        alloc,
        shown,
        r#"{ "label": "a\u0022", "books": ["x", "y"] }"#,
    )?;
    push_rewritten::<Members<List<i64>>>(alloc, shown, r#"{"b":[-1, 2],"a":[]}"#)?;
    push_rewritten::<List<Option<bool>>>(alloc, shown, "[true, null]")?;
    push_rewritten::<u32>(alloc, shown, " 7 ")?;
    let large = to_text(alloc, &9_007_199_254_740_991u64)?;
    line(shown, "large", large.as_str())?;
    push_value(alloc, shown, "[1, {\"a\": \"b\"}]")
}

fn push_rewritten<T: Form + ToJson>(
    alloc: Global,
    shown: &mut String,
    text: &str,
) -> Result<(), AllocError> {
    let found = rewritten::<T>(alloc, text)?;
    line(shown, text, found.as_str())
}

fn rewritten<T: Form + ToJson>(alloc: Global, text: &str) -> Result<Text, AllocError> {
    let Some(value) = parse_json(alloc, text.as_bytes())? else {
        return Text::from_str(alloc, "no JSON");
    };
    match T::read(alloc, &value) {
        Ok(read) => to_text(alloc, &read),
        Err(_) => Text::from_str(alloc, "wrong"),
    }
}

fn push_value(alloc: Global, shown: &mut String, text: &str) -> Result<(), AllocError> {
    match parse_json(alloc, text.as_bytes())? {
        Some(value) => line(shown, text, write_json(alloc, &value)?.as_str()),
        None => line(shown, text, "no JSON"),
    }
}
