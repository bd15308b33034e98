ghost use Rattle.std.specs.List.{IsDistinct};
ghost use Rattle.std.specs.Prelude.{◌≡◌, ◌+◌, ◌<◌, IfOk, length, map};
ghost use Rattle.wb_aql_check.specs.Checked.{IsChecked};
ghost use Rattle.wb_store.specs.declared.scalars.Scalar.TheVariants.{Object};
ghost use Rattle.wb_aql_values.specs.Bounds.{IsBounded};
ghost use Rattle.wb_aql_values.specs.Cells.{same_cell};
ghost use Rattle.wb_aql_values.specs.Readings.{contents};
ghost use Rattle.wb_aql_values.specs.Runs.{Gives, answered, run};
ghost use Rattle.wb_aql_eval.specs.Outcomes.{Binds, objects_of, outcome_of, ran, sense};

use crate::env::{Env, Outcome};
use crate::nodes::eval_node;
use crate::scope::{Context, Scope};
use std::alloc::{AllocError, Global};
use wb_aql_check::{Checked, Origin};
use wb_aql_values::{Answer, Gathered, Halt, Reads, Sort, Value};
use wb_base::List;
use wb_metamodel::{ClassId, ObjectId};
use wb_model::{Cell, Model, Scalar};
use wb_outer::Steps;

/// The value of what was checked, and exactly the cells that are read for it; this is one step, also without memory.
pub fn eval<L>(
    alloc: Global,
    e: &Checked,
    env: &Env,
    model: &Model,
    steps: &mut Steps<L>,
) -> Result<Outcome, AllocError>
    requires bound { Binds model.now.metamodel e.now.1 env.now }
    requires checked { IsChecked model.now.metamodel e.now }
    ensures outcome { IfOk result (λ outcome. outcome_of e.now env.now model.now ≡ ran outcome) }
    ensures bounded { IfOk result (λ outcome. IfOk (answered outcome.answer) (IsBounded model.now.metamodel)) }
    ensures distinct { IfOk result (λ outcome. IsDistinct same_cell outcome.reads) }
    ensures counted { steps.new ≡ steps.old + 1 }
{
    steps.tick();
    let mut reads = Reads::new(alloc);
    match eval_checked(alloc, e, env, model, &mut reads) {
        Ok(value) => Ok(Outcome {
            answer: Answer::Value(value),
            reads,
        }),
        Err(Halt::Fault(fault)) => Ok(Outcome {
            answer: Answer::Fault(fault),
            reads,
        }),
        Err(Halt::NoMemory) => Err(AllocError),
    }
}

fn eval_checked(
    alloc: Global,
    e: &Checked,
    env: &Env,
    model: &Model,
    reads: &mut Reads,
) -> Result<Value, Halt>
    requires bound { Binds model.now.metamodel e.now.1 env.now }
    requires checked { IsChecked model.now.metamodel e.now }
    ensures value { Gives (run (sense model.now.metamodel e.now.0 env.now) (contents model.now) reads.old) result reads.new }
    ensures bounded { IfOk result (IsBounded model.now.metamodel) }
{
    match e.origin() {
        Origin::Expr(expr) => {
            let context = Context {
                alloc,
                model,
                scope: Scope::Outer(env),
            };
            eval_node(&context, expr.node(), reads)
        }
        Origin::Extent(class) => eval_objects(alloc, *class, model, reads),
    }
}

/// The live objects that conform to a class.
fn eval_objects(
    alloc: Global,
    class: ClassId,
    model: &Model,
    reads: &mut Reads,
) -> Result<Value, Halt>
    requires { class < length model.now.metamodel.classes }
    ensures value { Gives (run (objects_of class) (contents model.now) reads.old) result reads.new }
    ensures bounded { IfOk result (IsBounded model.now.metamodel) }
{
    reads.note(Cell::Extent(class))?;
    let found = model.extent(alloc, class)?;
    let members = as_scalars(alloc, found.as_slice())?;
    let mut gathered = Gathered::new(alloc, Sort::OrderedSet);
    gathered.put(Value::Sequence(members))?;
    Ok(gathered.into_value(alloc)?)
}

fn as_scalars(alloc: Global, objects: &[ObjectId]) -> Result<List<Scalar>, AllocError>
    ensures { IfOk result (λ xs. xs ≡ map Object objects.now) }
{
    let mut scalars = Vec::new(alloc);
    for o in objects {
        scalars.push(Scalar::Object(*o))?;
    }
    Ok(List::from_vec(scalars))
}
