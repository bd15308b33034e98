ghost use Rattle.std.specs.Prelude.{◌≡◌, IfOk};
ghost use Rattle.wb_answers.specs.Meanings.{is_true, members_of, object_in, objects_among, objects_of};

use indexmap::IndexSet;
use std::alloc::{AllocError, Global};
use wb_aql_values::{Answer, Value};
use wb_metamodel::ObjectId;
use wb_store::Scalar;

/// Is the answer the value true?
pub fn is_true(answer: &Answer) -> bool
    ensures { result ≡ is_true answer.now }
{
    match answer {
        Answer::Value(Value::One(Scalar::Bool(b))) => *b,
        _ => false,
    }
}

/// The objects of an answer, each at its first place.
#[tactic(auto, unfolding(crate::specs::Meanings::objects_of))]
pub fn objects_of(alloc: Global, answer: &Answer) -> Result<IndexSet<ObjectId>, AllocError>
    ensures { IfOk result (λ objects. objects.keys ≡ objects_of answer.now) }
{
    objects_among(alloc, members_of(answer))
}

// The members of a collection, a scalar alone, and none of null or a fault.
fn members_of(answer: &Answer) -> &[Scalar]
    ensures { result.now ≡ members_of answer.now }
{
    match answer {
        Answer::Value(value) => value.members(),
        Answer::Fault(_) => &[],
    }
}

fn objects_among(alloc: Global, values: &[Scalar]) -> Result<IndexSet<ObjectId>, AllocError>
    ensures { IfOk result (λ objects. objects.keys ≡ objects_among values.now) }
{
    let mut objects = IndexSet::new(alloc);
    for value in values {
        if let Some(object) = object_in(value) {
            objects.insert_full(object)?;
        }
    }
    Ok(objects)
}

fn object_in(value: &Scalar) -> Option<ObjectId>
    ensures { result ≡ object_in value.now }
{
    match value {
        Scalar::Object(o) => Some(*o),
        _ => None,
    }
}
