//! Lines of a program of cases.
use std::alloc::AllocError;

/// What the cases that follow are about.
pub fn heading(shown: &mut String, text: &str) -> Result<(), AllocError> {
    shown.push_str("-- ")?;
    shown.push_str(text)?;
    shown.push_str("\n")
}

/// A case and what was found, as a line.
pub fn line(shown: &mut String, case: &str, found: &str) -> Result<(), AllocError> {
    shown.push_str(case)?;
    shown.push_str(": ")?;
    shown.push_str(found)?;
    shown.push_str("\n")
}

/// The bytes as a text.
pub fn as_text(bytes: &[u8]) -> &str {
    std::str::from_utf8(bytes).unwrap_or("no text")
}
