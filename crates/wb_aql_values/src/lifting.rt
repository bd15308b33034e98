ghost use Rattle.std.specs.Prelude.{◌≡◌, true, OnOk};
ghost use Rattle.std.specs.List.{list_all};
ghost use Rattle.wb_metamodel.specs.Metamodel.{Metamodel};
ghost use Rattle.wb_store.specs.declared.scalars.Scalar.{Scalar};
ghost use Rattle.wb_aql_values.specs.declared.values.Value.{Value};
ghost use Rattle.wb_aql_values.specs.Bounds.{IsBounded, is_bounded};
ghost use Rattle.wb_aql_values.specs.Readings.{Reading, contents, gather, lifted, of_each};
ghost use Rattle.wb_aql_values.specs.Runs.{Gives, Leaves, run};

use crate::faults::Halt;
use crate::gathered::Gathered;
use crate::reads::Reads;
use crate::values::{Sort, Value};
use std::alloc::Global;
use wb_model::{Model, Scalar};

/// A function of scalars that looks at a model.
pub trait OnScalars {
    // What is looked at for a scalar, or for null, and what it gives.
    ghost on_scalar: { Self → Metamodel → Scalar → Reading Value };

    ghost on_null: { Self → Metamodel → Reading Value };

    // What the function needs of the metamodel.
    ghost Needs: { Self → Metamodel → Type 0 };

    fn of_scalar(
        &self,
        alloc: Global,
        x: &Scalar,
        model: &Model,
        reads: &mut Reads,
    ) -> Result<Value, Halt>
        requires needs { Needs self.now model.now.metamodel }
        requires bounded { is_bounded model.now.metamodel x.now ≡ true }
        ensures { Gives (run (on_scalar self.now model.now.metamodel x.now) (contents model.now) reads.old) result reads.new };

    fn of_null(&self, alloc: Global, model: &Model, reads: &mut Reads) -> Result<Value, Halt>
        requires { Needs self.now model.now.metamodel }
        ensures { Gives (run (on_null self.now model.now.metamodel) (contents model.now) reads.old) result reads.new };
}

/// The function taken of a value: of each member of a collection, into a collection of the same sort.
pub fn lift<F: OnScalars>(
    alloc: Global,
    function: &F,
    value: &Value,
    model: &Model,
    reads: &mut Reads,
) -> Result<Value, Halt>
    requires needs { F.Needs function.now model.now.metamodel }
    requires bounded { IsBounded model.now.metamodel value.now }
    ensures { Gives (run (lifted (F.on_null function.now model.now.metamodel) (F.on_scalar function.now model.now.metamodel) value.now) (contents model.now) reads.old) result reads.new }
{
    match value {
        Value::Null => function.of_null(alloc, model, reads),
        Value::One(x) => function.of_scalar(alloc, x, model, reads),
        Value::Sequence(xs) => {
            of_each(alloc, function, Sort::Sequence, xs.as_slice(), model, reads)
        }
        Value::OrderedSet(xs) => {
            of_each(
                alloc,
                function,
                Sort::OrderedSet,
                xs.as_slice(),
                model,
                reads,
            )
        }
    }
}

// The function taken of each scalar in order, and the results put into a collection of a sort.
fn of_each<F: OnScalars>(
    alloc: Global,
    function: &F,
    sort: Sort,
    xs: &[Scalar],
    model: &Model,
    reads: &mut Reads,
) -> Result<Value, Halt>
    requires needs { F.Needs function.now model.now.metamodel }
    requires bounded { list_all (is_bounded model.now.metamodel) xs.now ≡ true }
    ensures { Gives (run (of_each sort (F.on_scalar function.now model.now.metamodel) xs.now) (contents model.now) reads.old) result reads.new }
{
    let mut gathered = Gathered::new(alloc, sort);
    for x in xs {
        gather(alloc, &mut gathered, function, x, model, reads)?;
    }
    Ok(gathered.into_value(alloc)?)
}

// What the function gives of one more scalar, put last.
fn gather<F: OnScalars>(
    alloc: Global,
    gathered: &mut Gathered,
    function: &F,
    x: &Scalar,
    model: &Model,
    reads: &mut Reads,
) -> Result<(), Halt>
    requires needs { F.Needs function.now model.now.metamodel }
    requires bounded { is_bounded model.now.metamodel x.now ≡ true }
    ensures sort { OnOk result (gathered.new.0 ≡ gathered.old.0) }
    ensures members { Leaves (run (gather gathered.old.0 (F.on_scalar function.now model.now.metamodel) gathered.old.1 x.now) (contents model.now) reads.old) result gathered.new.1 reads.new }
{
    let value = function.of_scalar(alloc, x, model, reads)?;
    gathered.put(value)
}
