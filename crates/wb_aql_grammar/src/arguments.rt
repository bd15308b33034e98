ghost use Rattle.std.specs.Prelude.{◌≡◌, ℕ, List, IsTrue, ◌↔◌, ◌⊎◌, Some};
ghost use Rattle.wb_aql_grammar.specs.Tree.{Tree, Arguments};
ghost use Rattle.wb_aql_grammar.specs.invariants.Runs.{argument_next};
ghost use Rattle.wb_aql_grammar.specs.Places.{head};
ghost use Rattle.wb_aql_grammar.specs.invariants.Reading.{line_of};
ghost use Rattle.wb_aql_grammar.specs.declared.expr.CallKind.{CallKind};
ghost use Rattle.wb_aql_tokens.specs.declared.token.Token.TheVariants.{Sign as sign_token};

use crate::reading::is_next;
use wb_aql_tokens::{Sign, Token};

/// What an argument begins as.
#[derive(Clone, Copy)]
pub enum Shape {
    /// `name '|'`
    Lambda,
    /// `name '::' name`, and no further `::`
    Class,
    Expression,
}

/// What an argument that begins here is.
pub fn shape_of(tokens: &[Token]) -> Shape
    ensures { (k : CallKind) (x : Tree) (v : List ℕ) (xs : Arguments) → argument_next k x v xs tokens.now ≡ line_of result k x v xs }
{
    match tokens {
        [Token::Name(_), Token::Sign(Sign::Bar), ..] => Shape::Lambda,
        [
            Token::Name(_),
            Token::Sign(Sign::Colons),
            Token::Name(_),
            rest @ ..,
        ] => {
            if is_next(rest, Sign::Colons) {
                Shape::Expression
            } else {
                Shape::Class
            }
        }
        _ => Shape::Expression,
    }
}

/// Does a bracket close here?
pub fn is_closing(tokens: &[Token]) -> bool
    ensures { IsTrue result ↔ ((head tokens.now ≡ Some (sign_token Sign.Close)) ⊎ (head tokens.now ≡ Some (sign_token Sign.CloseBrace))) }
{
    is_next(tokens, Sign::Close) || is_next(tokens, Sign::CloseBrace)
}
