//! The words of a line.

/// What a line asks for: its name, mostly an object, a feature as `Book.author`, and a value.
#[derive(Drop)]
pub struct Asked<'a> {
    pub name: &'a str,
    pub object: &'a str,
    pub feature: &'a str,
    pub value: &'a str,
    /// All that stands behind the name.
    pub text: &'a str,
}

pub fn words_of(line: &str) -> Asked<'_> {
    let (name, text) = first_word(line);
    let (object, behind) = first_word(text);
    let (feature, value) = first_word(behind);
    Asked {
        name,
        object,
        feature,
        value,
        text,
    }
}

/// What stands before the first space, and behind it.
fn first_word(text: &str) -> (&str, &str) {
    text.split_once(' ').unwrap_or((text, ""))
}
