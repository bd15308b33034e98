ghost use Rattle.std.specs.Prelude.{◌≡◌, ◌++◌, ◌≤◌, true, IfOk, OnOk, length, string_bytes};
ghost use Rattle.std.specs.List.{flat_map, list_all};
ghost use Rattle.wb_aql_values.specs.Bounds.{IsBounded, is_bounded};
ghost use Rattle.wb_aql_values.specs.TextForms.{Extends, full_form, joined_forms, next_form, scalar_form, text_form};

use crate::values::Value;
use std::alloc::{AllocError, Global};
use wb_base::Text;
use wb_metamodel::Metamodel;
use wb_model::Scalar;

/// How many bytes a text has at most.
const MAX_TEXT: usize = 65536;

/// The text form of a value, none where it is longer than 65,536 bytes.
pub fn text_form(
    alloc: Global,
    value: &Value,
    metamodel: &Metamodel,
) -> Result<Option<Text>, AllocError>
    requires { IsBounded metamodel.now value.now }
    ensures { IfOk result (λ form. form ≡ text_form metamodel.now value.now) }
{
    let mut form = String::new(alloc);
    if !push_form(&mut form, value, metamodel)? {
        return Ok(None);
    }
    Ok(Some(Text::from_string(form)))
}

/// The text forms of two values, one after the other; none where they have more than 65,536 bytes together.
pub fn join_forms(
    alloc: Global,
    a: &Value,
    b: &Value,
    metamodel: &Metamodel,
) -> Result<Option<Text>, AllocError>
    requires first { IsBounded metamodel.now a.now }
    requires second { IsBounded metamodel.now b.now }
    ensures { IfOk result (λ text. text ≡ joined_forms metamodel.now a.now b.now) }
{
    let mut form = String::new(alloc);
    if !push_form(&mut form, a, metamodel)? {
        return Ok(None);
    }
    if !push_form(&mut form, b, metamodel)? {
        return Ok(None);
    }
    Ok(Some(Text::from_string(form)))
}

/// Puts the form of a value behind a text, where both have at most 65,536 bytes together; else it answers no.
pub fn push_form(
    form: &mut String,
    value: &Value,
    metamodel: &Metamodel,
) -> Result<bool, AllocError>
    requires { IsBounded metamodel.now value.now }
    ensures { IfOk result (λ fits. Extends fits (string_bytes form.old ++ full_form metamodel.now value.now) (string_bytes form.new)) }
{
    let members = value.members();
    match members.split_first() {
        Some((first, rest)) => {
            push_scalar(form, first, metamodel)?;
            push_rest(form, rest, metamodel)
        }
        None => push_rest(form, members, metamodel),
    }
}

// Puts the forms of further members last, each after a comma and a space.
fn push_rest(form: &mut String, xs: &[Scalar], metamodel: &Metamodel) -> Result<bool, AllocError>
    requires { list_all (is_bounded metamodel.now) xs.now ≡ true }
    ensures { IfOk result (λ fits. Extends fits (string_bytes form.old ++ flat_map (next_form metamodel.now) xs.now) (string_bytes form.new)) }
{
    for x in xs {
        if form.len() > MAX_TEXT {
            return Ok(false);
        }
        push_next(form, x, metamodel)?;
    }
    if form.len() > MAX_TEXT {
        return Ok(false);
    }
    Ok(true)
}

// Puts the form of a member last, after a comma and a space.
fn push_next(form: &mut String, x: &Scalar, metamodel: &Metamodel) -> Result<(), AllocError>
    requires { is_bounded metamodel.now x.now ≡ true }
    ensures { OnOk result (string_bytes form.new ≡ string_bytes form.old ++ next_form metamodel.now x.now) }
{
    form.push_str(", ")?;
    push_scalar(form, x, metamodel)
}

/// Puts the form of a scalar behind a text.
pub fn push_scalar(form: &mut String, x: &Scalar, metamodel: &Metamodel) -> Result<(), AllocError>
    requires { is_bounded metamodel.now x.now ≡ true }
    ensures { OnOk result (string_bytes form.new ≡ string_bytes form.old ++ scalar_form metamodel.now x.now) }
{
    match x {
        Scalar::Int(n) => write!(form, "{n}"),
        Scalar::Bool(true) => form.push_str("true"),
        Scalar::Bool(false) => form.push_str("false"),
        Scalar::Text(text) => form.push_str(text.as_str()),
        Scalar::Literal(e, l) => form.push_str(metamodel.literal_name(*e, *l).as_str()),
        Scalar::Object(o) => write!(form, "#{}", o.0),
    }
}
