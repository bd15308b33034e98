ghost use Rattle.std.specs.Prelude.{◌≡◌, OnOk};
ghost use Rattle.wb_aql_values.specs.Values.{collection, flag, members, same_value, sort_of, with_members};

use crate::faults::Fault;
use crate::gathered::Gathered;
use std::alloc::{AllocError, Global};
use wb_base::{Duplicate, List};
use wb_model::Scalar;

/// What an expression gives.
pub enum Value {
    Null,
    One(Scalar),
    Sequence(List<Scalar>),
    /// No two members are equal.
    OrderedSet(List<Scalar>),
}

impl Drop for Value {
    fn drop(self) {
        match self {
            Value::Null => {}
            Value::One(_x) => {}
            Value::Sequence(_xs) => {}
            Value::OrderedSet(_xs) => {}
        }
    }
}

/// The sorts of collection.
#[derive(Clone, Copy)]
pub enum Sort {
    Sequence,
    OrderedSet,
}

/// A value or a fault.
#[derive(Drop)]
pub enum Answer {
    Value(Value),
    Fault(Fault),
}

/// A Bool as a value.
pub fn flag(b: bool) -> Value
    ensures { result ≡ flag b }
{
    Value::One(Scalar::Bool(b))
}

/// The collection of a sort that has these members.
pub fn collection(sort: Sort, members: List<Scalar>) -> Value
    ensures { result ≡ collection sort members }
{
    match sort {
        Sort::Sequence => Value::Sequence(members),
        Sort::OrderedSet => Value::OrderedSet(members),
    }
}

/// Are two values equal, as the operator `=` compares them?
pub fn are_same(a: &Value, b: &Value) -> bool
    ensures { result ≡ same_value a.now b.now }
{
    match (a, b) {
        (Value::Null, Value::Null) => true,
        (Value::One(x), Value::One(y)) => x == y,
        (Value::Sequence(xs), Value::Sequence(ys)) => xs == ys,
        (Value::OrderedSet(xs), Value::OrderedSet(ys)) => xs == ys,
        _ => false,
    }
}

impl Value {
    /// The members of a collection, a scalar alone, and none of null.
    pub fn members(&self) -> &[Scalar]
        ensures { result.now ≡ members self.now }
    {
        match self {
            Value::Null => &[],
            Value::One(x) => std::slice::from_ref(x),
            Value::Sequence(xs) => xs.as_slice(),
            Value::OrderedSet(xs) => xs.as_slice(),
        }
    }

    /// The sort of a collection; of a scalar and of null it is that of an ordered set.
    pub fn sort(&self) -> Sort
        ensures { result ≡ sort_of self.now }
    {
        match self {
            Value::Sequence(_) => Sort::Sequence,
            Value::Null => Sort::OrderedSet,
            Value::One(_) => Sort::OrderedSet,
            Value::OrderedSet(_) => Sort::OrderedSet,
        }
    }

    // Its members are put last, however many there are then.
    #[tactic(auto, unfolding(crate::specs::Values::with_members))]
    pub(crate) fn put_into(self, gathered: &mut Gathered) -> Result<(), AllocError>
        ensures { OnOk result (gathered.new ≡ (gathered.old.0, with_members gathered.old.0 gathered.old.1 (members self))) }
    {
        match self {
            Value::Null => Ok(()),
            Value::One(x) => gathered.put_one(x),
            Value::Sequence(xs) => gathered.put_all(xs),
            Value::OrderedSet(xs) => gathered.put_all(xs),
        }
    }
}

impl Duplicate for Value {
    fn copy(&self, alloc: Global) -> Result<Value, AllocError> {
        match self {
            Value::Null => Ok(Value::Null),
            Value::One(x) => Ok(Value::One(x.copy(alloc)?)),
            Value::Sequence(xs) => Ok(Value::Sequence(xs.copy(alloc)?)),
            Value::OrderedSet(xs) => Ok(Value::OrderedSet(xs.copy(alloc)?)),
        }
    }
}

impl Duplicate for Answer {
    fn copy(&self, alloc: Global) -> Result<Answer, AllocError> {
        match self {
            Answer::Value(value) => Ok(Answer::Value(value.copy(alloc)?)),
            Answer::Fault(fault) => Ok(Answer::Fault(*fault)),
        }
    }
}
