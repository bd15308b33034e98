ghost use Rattle.std.specs.Prelude.{◌≡◌};
ghost use Rattle.wb_aql_tokens.specs.Lexes.{is_expression_name};

use crate::signs::reserved_word;
use wb_base::is_name;

/// Can an expression write the text as a name? Then it is no reserved word.
pub fn is_expression_name(text: &str) -> bool
    ensures { result ≡ is_expression_name text.now }
{
    is_name(text) && reserved_word(text).is_none()
}
