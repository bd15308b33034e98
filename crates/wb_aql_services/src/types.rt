ghost use Rattle.std.specs.Prelude.{◌≡◌, ◌<◌, ◌++◌, ◌∷◌, [], IfOk, Some, length};
ghost use Rattle.wb_store.specs.declared.scalars.Cell.TheVariants.{Kind};
ghost use Rattle.wb_aql_services.specs.Asked.{IsType};
ghost use Rattle.wb_aql_services.specs.Types.{as_type, conforms_to, is_exactly, is_of, keep, kept, narrowed, object_in, tested};
ghost use Rattle.wb_aql_values.specs.Readings.{contents, held};
ghost use Rattle.wb_aql_values.specs.Runs.{Gives, Leaves, run, with_read};

use std::alloc::{AllocError, Global};
use wb_aql_values::{Halt, Reads, Value, flag, look_at_class};
use wb_base::{Duplicate, List};
use wb_metamodel::{ClassId, Metamodel, ObjectId};
use wb_model::{Cell, Model, Scalar};

/// The object that a scalar is, if it is one.
pub fn object_in(x: &Scalar) -> Option<ObjectId>
    ensures { result ≡ object_in x.now }
{
    match x {
        Scalar::Object(o) => Some(*o),
        Scalar::Int(_) => None,
        Scalar::Bool(_) => None,
        Scalar::Text(_) => None,
        Scalar::Literal(_, _) => None,
    }
}

/// Does a class conform to a type? Every class does where no type is asked for.
pub fn conforms_to(metamodel: &Metamodel, asked: &Option<ClassId>, class: ClassId) -> bool
    requires asked { IsType metamodel.now asked.now }
    requires class { class < length metamodel.now.classes }
    ensures { result ≡ conforms_to metamodel.now asked.now class }
{
    match asked {
        Some(asked) => metamodel.conforms(class, *asked),
        None => true,
    }
}

/// Is it the type itself?
pub fn is_exactly(asked: &Option<ClassId>, class: ClassId) -> bool
    ensures { result ≡ is_exactly asked.now class }
{
    match asked {
        Some(asked) => class == *asked,
        None => true,
    }
}

/// Is the object live, and does its class conform to the type? Its class is read.
pub fn look_whether_of(
    model: &Model,
    asked: &Option<ClassId>,
    o: ObjectId,
    reads: &mut Reads,
) -> Result<bool, AllocError>
    requires { IsType model.now.metamodel asked.now }
    ensures value { IfOk result (λ b. b ≡ is_of model.now.metamodel asked.now (contents model.now (Kind o))) }
    ensures read { IfOk result (λ b. reads.new ≡ with_read reads.old (Kind o)) }
{
    reads.note(Cell::Kind(o))?;
    match model.kind(o) {
        Some(class) => Ok(conforms_to(model.metamodel(), asked, class)),
        None => Ok(false),
    }
}

/// The live objects among scalars that conform to a type; all of the scalars where no type is asked for.
pub fn narrowed(
    alloc: Global,
    asked: &Option<ClassId>,
    xs: List<Scalar>,
    model: &Model,
    reads: &mut Reads,
) -> Result<List<Scalar>, Halt>
    requires { IsType model.now.metamodel asked.now }
    ensures { Gives (run (narrowed model.now.metamodel asked.now xs) (contents model.now) reads.old) result reads.new }
{
    match asked {
        Some(_) => kept(alloc, asked, xs.as_slice(), model, reads),
        None => Ok(xs),
    }
}

/// The live objects among scalars that conform to a type.
pub fn kept(
    alloc: Global,
    asked: &Option<ClassId>,
    xs: &[Scalar],
    model: &Model,
    reads: &mut Reads,
) -> Result<List<Scalar>, Halt>
    requires { IsType model.now.metamodel asked.now }
    ensures { Gives (run (kept model.now.metamodel asked.now xs.now) (contents model.now) reads.old) result reads.new }
{
    let mut kept = List::new(alloc);
    for x in xs {
        keep(&mut kept, asked, x, model, reads)?;
    }
    Ok(kept)
}

// A live object that conforms to the type is kept.
fn keep(
    kept: &mut List<Scalar>,
    asked: &Option<ClassId>,
    x: &Scalar,
    model: &Model,
    reads: &mut Reads,
) -> Result<(), Halt>
    requires { IsType model.now.metamodel asked.now }
    ensures { Leaves (run (keep model.now.metamodel asked.now kept.old x.now) (contents model.now) reads.old) result kept.new reads.new }
{
    let Some(o) = object_in(x) else {
        return Ok(());
    };
    if look_whether_of(model, asked, o, reads)? {
        kept.push(Scalar::Object(o))?;
    }
    Ok(())
}

/// `oclIsKindOf`: does the object conform to the type? What is no object is of no class.
pub fn is_kind_of(
    asked: &Option<ClassId>,
    x: &Scalar,
    model: &Model,
    reads: &mut Reads,
) -> Result<Value, Halt>
    requires { IsType model.now.metamodel asked.now }
    ensures { Gives (run (tested (conforms_to model.now.metamodel asked.now) x.now) (contents model.now) reads.old) result reads.new }
{
    let Some(o) = object_in(x) else {
        return Ok(flag(false));
    };
    let class = look_at_class(model, o, reads)?;
    Ok(flag(conforms_to(model.metamodel(), asked, class)))
}

/// `oclIsTypeOf`: is the type the object's class?
pub fn is_type_of(
    asked: &Option<ClassId>,
    x: &Scalar,
    model: &Model,
    reads: &mut Reads,
) -> Result<Value, Halt>
    ensures { Gives (run (tested (is_exactly asked.now) x.now) (contents model.now) reads.old) result reads.new }
{
    let Some(o) = object_in(x) else {
        return Ok(flag(false));
    };
    let class = look_at_class(model, o, reads)?;
    Ok(flag(is_exactly(asked, class)))
}

/// `oclAsType`: the object where it conforms, and else null.
pub fn cast(
    asked: &Option<ClassId>,
    x: &Scalar,
    model: &Model,
    reads: &mut Reads,
) -> Result<Value, Halt>
    requires { IsType model.now.metamodel asked.now }
    ensures { Gives (run (as_type model.now.metamodel asked.now x.now) (contents model.now) reads.old) result reads.new }
{
    let Some(o) = object_in(x) else {
        return Ok(Value::Null);
    };
    let class = look_at_class(model, o, reads)?;
    if conforms_to(model.metamodel(), asked, class) {
        Ok(Value::One(Scalar::Object(o)))
    } else {
        Ok(Value::Null)
    }
}
