//! The tokens of the expression language: the bytes that spell each, and how a text falls into them.
#![tactic(auto)]

mod characters;
mod lexer;
mod lexer_laws;
mod names;
mod quotes;
mod signs;
mod token;

pub use lexer::{Lexed, tokens_of};
pub use lexer_laws::{
    each_token_starts, one_lexing, token_stands_behind_space, token_stands_first, tokens_are_within,
};
pub use names::is_expression_name;
pub use token::{Sign, Token};
