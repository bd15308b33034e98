use std::alloc::{AllocError, Global};
use wb_aql_syntax::Text;
use wb_aql_tokens::{Lexed, Token, tokens_of};

/// Texts that are no line of a file.
pub const BYTES: [&[u8]; 6] = [
    b"\ta\r\nb ",
    b"a\x0cb",
    b"\xc3\xa9",
    b"'\\n\\t\n'",
    b"'caf\xc3\xa9'",
    b"'caf\xc3'",
];

/// The tokens of a text with the offsets at which they start: signs and words by their names, names behind `@`.
pub fn tokens_in(alloc: Global, text: &[u8]) -> Result<Text, AllocError> {
    let lexed = tokens_of(alloc, text)?;
    all_shown(alloc, &lexed)
}

fn all_shown(alloc: Global, lexed: &Lexed) -> Result<Text, AllocError> {
    let mut all = String::new(alloc);
    for (token, start) in lexed.tokens.as_slice().iter().zip(lexed.starts.as_slice()) {
        write!(all, " {start}:")?;
        push_token(&mut all, token)?;
    }
    Ok(Text::from_string(all))
}

fn push_token(all: &mut String, token: &Token) -> Result<(), AllocError> {
    match token {
        Token::Sign(sign) => write!(all, "{sign:?}"),
        Token::Name(name) => write!(all, "@{}", name.as_str()),
        Token::Integer(value) => write!(all, "{value}"),
        Token::Quoted(value) => write!(all, "'{}'", value.as_str()),
        Token::Bad => write!(all, "Bad"),
    }
}
