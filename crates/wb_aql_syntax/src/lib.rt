//! The text of the expression language: its printer, over its tokens, its grammar and its parser.
#![tactic(auto)]

mod printer;
mod printing;
mod printing_laws;
mod sign_words;
mod tightness;
mod writer;

pub use printing::print;
pub use printing_laws::{
    canonical_is_shallowest, canonical_is_shortest, canonical_spells, canonical_tells_trees_apart,
    printed_is_read_back, printed_spells, printed_tells_trees_apart, read_trees_are_writable,
};
pub use wb_aql_grammar::{
    Argument, Binary, CallKind, CollectionKind, Constant, Expr, Node, ParseRefusal, Unary,
    one_depth_of_text, one_place_of_depth, one_place_of_syntax, one_refusal, one_refusal_of_text,
    one_syntax_error_of_text, one_tree, one_tree_of_text, parse, spelled_is_not_refused,
};
pub use wb_aql_tokens::{
    Lexed, Sign, Token, each_token_starts, one_lexing, token_stands_behind_space,
    token_stands_first, tokens_are_within, tokens_of,
};
pub use wb_base::Text;
