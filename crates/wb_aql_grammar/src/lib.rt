//! The trees of the expression language, its grammar on tokens, and its parser.
#![tactic(auto)]

mod arguments;
mod atom;
mod expr;
mod expression;
mod laws;
mod level;
mod parser;
mod parsing;
mod postfix;
mod reading;
mod refusal;
mod spelled;
mod text_laws;
mod unread;

pub use expr::{Argument, Binary, CallKind, CollectionKind, Constant, Node, Unary};
pub use expression::Expr;
pub use laws::{one_place_of_depth, one_place_of_syntax, one_refusal, one_tree};
pub use parsing::parse;
pub use refusal::ParseRefusal;
pub use text_laws::{
    one_depth_of_text, one_refusal_of_text, one_syntax_error_of_text, one_tree_of_text,
    spelled_is_not_refused,
};
