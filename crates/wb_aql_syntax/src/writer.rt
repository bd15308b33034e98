ghost use Rattle.std.specs.Prelude.{◌≡◌, ◌++◌, ◌∷◌, [], OnOk, string_bytes};
ghost use Rattle.std.specs.Char.{encode_utf8};
ghost use Rattle.std.specs.List.{flat_map};
ghost use Rattle.wb_aql_syntax.specs.Canonical.{apart, comma_if, prefix, mark, blank, token as token_piece};
ghost use Rattle.wb_aql_syntax.specs.Printed.{Wrote, escaped};
ghost use Rattle.wb_aql_tokens.specs.declared.token.Token.TheVariants.{Name as name_token, Integer as integer_token, Quoted as quoted_token};

use crate::sign_words::word;
use std::alloc::AllocError;
use wb_aql_grammar::Unary;
use wb_aql_tokens::Sign;
use wb_base::Text;

/// Writes a sign or a word.
#[tactic(auto, unfolding(crate::specs::Printed::bytes_in))]
pub fn write_sign(out: &mut String, sign: Sign) -> Result<(), AllocError>
    ensures { OnOk result (Wrote out.old (mark sign ∷ []) out.new) }
{
    out.push_str(word(sign))
}

/// Writes a space.
#[tactic(auto, unfolding(crate::specs::Printed::bytes_in))]
pub fn write_blank(out: &mut String) -> Result<(), AllocError>
    ensures { OnOk result (Wrote out.old (blank ∷ []) out.new) }
{
    out.push_str(" ")
}

/// Writes a sign or a word with a space on either side.
#[tactic(auto, unfolding(crate::specs::Printed::bytes_in))]
pub fn write_apart(out: &mut String, sign: Sign) -> Result<(), AllocError>
    ensures { OnOk result (Wrote out.old (apart sign) out.new) }
{
    write_blank(out)?;
    write_sign(out, sign)?;
    write_blank(out)
}

/// Writes what stands before an element: a comma, if others stand before it.
#[tactic(auto, unfolding(crate::specs::Printed::bytes_in, wb_aql_tokens::specs::Lexes::word_of))]
pub fn write_comma(out: &mut String, later: bool) -> Result<(), AllocError>
    ensures { OnOk result (Wrote out.old (comma_if later) out.new) }
{
    if later {
        return out.push_str(", ");
    }
    Ok(())
}

/// Writes a prefix operator.
#[tactic(auto, unfolding(crate::specs::Printed::bytes_in, wb_aql_tokens::specs::Lexes::word_of))]
pub fn write_prefix(out: &mut String, operator: Unary) -> Result<(), AllocError>
    ensures { OnOk result (Wrote out.old (prefix operator) out.new) }
{
    match operator {
        Unary::Not => out.push_str("not "),
        Unary::Negate => out.push_str("-"),
    }
}

/// Writes a name.
#[tactic(auto, unfolding(crate::specs::Printed::bytes_in))]
pub fn write_name(out: &mut String, name: &Text) -> Result<(), AllocError>
    ensures { OnOk result (Wrote out.old (token_piece (name_token name.now) ∷ []) out.new) }
{
    out.push_str(name.as_str())
}

/// Writes an integer in decimal digits.
#[tactic(auto, unfolding(crate::specs::Printed::bytes_in))]
pub fn write_integer(out: &mut String, value: u64) -> Result<(), AllocError>
    ensures { OnOk result (Wrote out.old (token_piece (integer_token value) ∷ []) out.new) }
{
    write!(out, "{value}")
}

/// Writes a text in quotes.
#[tactic(auto, unfolding(crate::specs::Printed::bytes_in))]
pub fn write_quoted(out: &mut String, text: &Text) -> Result<(), AllocError>
    ensures { OnOk result (Wrote out.old (token_piece (quoted_token text.now) ∷ []) out.new) }
{
    out.push_str("'")?;
    write_escaped(out, text.as_str())?;
    out.push_str("'")
}

/// Writes a text, its quotes, backslashes, line feeds and tabs behind a `\`.
fn write_escaped(out: &mut String, text: &str) -> Result<(), AllocError>
    ensures { OnOk result (string_bytes out.new ≡ string_bytes out.old ++ flat_map escaped text.now) }
{
    for c in text.chars() {
        write_char(out, c)?;
    }
    Ok(())
}

/// Writes a character, behind a `\` where it needs one.
fn write_char(out: &mut String, c: char) -> Result<(), AllocError>
    ensures { OnOk result (string_bytes out.new ≡ string_bytes out.old ++ flat_map escaped (encode_utf8 c)) }
{
    if c == '\\' {
        return out.push_str("\\\\");
    }
    if c == '\'' {
        return out.push_str("\\'");
    }
    if c == '\n' {
        return out.push_str("\\n");
    }
    if c == '\t' {
        return out.push_str("\\t");
    }
    out.push(c)
}
