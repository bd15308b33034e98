ghost use Rattle.std.specs.Prelude.{◌≡◌, true, option_map, IfSome, if◌then◌else◌};
ghost use Rattle.wb_aql_tokens.specs.Lexes.{is_expression_name};
ghost use Rattle.wb_expressions.specs.Expressions.{behind, name_behind};

use wb_aql_tokens::is_expression_name;

/// What follows the prefix, where the text begins with it.
pub fn behind<'a>(prefix: &[u8], text: &'a [u8]) -> Option<&'a [u8]>
    ensures { option_map (λ rest. rest.now) result ≡ behind prefix.now text.now }
{
    text.strip_prefix(prefix)
}

/// The name that an expression can write and that follows the prefix.
pub fn name_behind<'a>(prefix: &[u8], text: &'a [u8]) -> Option<&'a str>
    ensures found { option_map (λ name. name.now) result ≡ name_behind prefix.now text.now }
    ensures name { IfSome result (λ name. is_expression_name name.now ≡ true) }
{
    match behind(prefix, text) {
        Some(rest) => expression_name(rest),
        None => None,
    }
}

/// The bytes as a name that an expression can write.
#[tactic(auto, using(crate::proofs::Names::no_text_no_name))]
fn expression_name(bytes: &[u8]) -> Option<&str>
    ensures found { option_map (λ name. name.now) result ≡ (if is_expression_name bytes.now then Some bytes.now else None) }
    ensures name { IfSome result (λ name. is_expression_name name.now ≡ true) }
{
    match std::str::from_utf8(bytes) {
        Ok(name) if is_expression_name(name) => Some(name),
        _ => None,
    }
}
