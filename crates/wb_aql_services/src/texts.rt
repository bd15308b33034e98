ghost use Rattle.std.specs.Prelude.{◌≡◌, IfOk, nat_eq, string_bytes, true};
ghost use Rattle.std.specs.List.{starts_with};
ghost use Rattle.wb_aql_values.specs.Bounds.{IsBounded, is_bounded};
ghost use Rattle.wb_aql_values.specs.Readings.{contents};
ghost use Rattle.wb_aql_values.specs.Runs.{Gives, run};
ghost use Rattle.wb_aql_values.specs.TextForms.{scalar_form};
ghost use Rattle.wb_aql_services.specs.Texts.{alive, begins, concat};

use crate::types::object_in;
use std::alloc::{AllocError, Global};
use wb_aql_values::{
    Fault, Halt, Reads, Value, flag, look_at_class, push_form, push_scalar, text_form,
};
use wb_base::Text;
use wb_metamodel::Metamodel;
use wb_model::{Model, Scalar};

/// An object has a text form only while it lives: its class is read.
pub fn look_whether_alive(x: &Scalar, model: &Model, reads: &mut Reads) -> Result<(), Halt>
    ensures { Gives (run (alive x.now) (contents model.now) reads.old) result reads.new }
{
    let Some(o) = object_in(x) else {
        return Ok(());
    };
    look_at_class(model, o, reads)?;
    Ok(())
}

/// The text form of a scalar.
pub fn form_of(alloc: Global, x: &Scalar, metamodel: &Metamodel) -> Result<String, AllocError>
    requires { is_bounded metamodel.now x.now ≡ true }
    ensures { IfOk result (λ form. string_bytes form ≡ scalar_form metamodel.now x.now) }
{
    let mut form = String::new(alloc);
    push_scalar(&mut form, x, metamodel)?;
    Ok(form)
}

/// `concat`: a text form with a value's behind it.
pub fn concat(
    value: &Value,
    mut form: String,
    model: &Model,
    reads: &mut Reads,
) -> Result<Value, Halt>
    requires { IsBounded model.now.metamodel value.now }
    ensures { Gives (run (concat model.now.metamodel value.now (string_bytes form)) (contents model.now) reads.old) result reads.new }
{
    if push_form(&mut form, value, model.metamodel())? {
        Ok(Value::One(Scalar::Text(Text::from_string(form))))
    } else {
        Err(Halt::Fault(Fault::TextTooLong))
    }
}

/// `startsWith`: does a text form begin with a value's?
pub fn begins(
    alloc: Global,
    value: &Value,
    form: String,
    model: &Model,
    reads: &mut Reads,
) -> Result<Value, Halt>
    requires { IsBounded model.now.metamodel value.now }
    ensures { Gives (run (begins model.now.metamodel value.now (string_bytes form)) (contents model.now) reads.old) result reads.new }
{
    match text_form(alloc, value, model.metamodel())? {
        Some(start) => Ok(flag(starts_with(&form, &start))),
        None => Err(Halt::Fault(Fault::TextTooLong)),
    }
}

fn starts_with(form: &String, start: &Text) -> bool
    ensures { result ≡ starts_with nat_eq (string_bytes form.now) start.now }
{
    form.as_str().as_bytes().starts_with(start.as_slice())
}
