ghost use Rattle.std.specs.Prelude.{◌≡◌, ◌<◌, ◌++◌, All, OnOk, length};
ghost use Rattle.wb_metamodel.specs.Metamodel.{features_of};
ghost use Rattle.wb_store.specs.Cells.{objects_in};
ghost use Rattle.wb_store.specs.Contents.{is_containment};
ghost use Rattle.wb_aql_services.specs.Asked.{IsType};
ghost use Rattle.wb_aql_services.specs.Navigation.{content, e_all_contents, e_contents, with_slot};
ghost use Rattle.wb_aql_values.specs.Readings.{contents};
ghost use Rattle.wb_aql_values.specs.Runs.{Gives, Leaves, run};

use crate::sequences::sequence;
use std::alloc::{AllocError, Global};
use wb_aql_values::{Halt, Reads, Value};
use wb_base::List;
use wb_metamodel::{ClassId, FeatureId, Metamodel, ObjectId};
use wb_model::{Cell, Model, Scalar};

/// `eContents`: what the object contains directly; of it what conforms to a type.
pub fn e_contents(
    alloc: Global,
    asked: &Option<ClassId>,
    o: ObjectId,
    class: ClassId,
    model: &Model,
    reads: &mut Reads,
) -> Result<Value, Halt>
    requires asked { IsType model.now.metamodel asked.now }
    requires class { class < length model.now.metamodel.classes }
    ensures { Gives (run (e_contents model.now.metamodel asked.now o class) (contents model.now) reads.old) result reads.new }
{
    let os = content(alloc, o, class, model, reads)?;
    sequence(alloc, asked, os.as_slice(), model, reads)
}

/// `eAllContents`: what the object contains directly or through others, in preorder; of it what conforms to a type.
pub fn e_all_contents(
    alloc: Global,
    asked: &Option<ClassId>,
    o: ObjectId,
    model: &Model,
    reads: &mut Reads,
) -> Result<Value, Halt>
    requires { IsType model.now.metamodel asked.now }
    ensures { Gives (run (e_all_contents model.now.metamodel asked.now o) (contents model.now) reads.old) result reads.new }
{
    reads.note(Cell::Tree(o))?;
    let os = model.tree(alloc, o)?;
    sequence(alloc, asked, os.as_slice(), model, reads)
}

/// What an object of a class contains directly: features in order, and then by place in the slot.
pub fn content(
    alloc: Global,
    o: ObjectId,
    class: ClassId,
    model: &Model,
    reads: &mut Reads,
) -> Result<List<ObjectId>, Halt>
    requires { class < length model.now.metamodel.classes }
    ensures { Gives (run (content model.now.metamodel o class) (contents model.now) reads.old) result reads.new }
{
    let mut content = List::new(alloc);
    for f in features_of(model.metamodel(), class) {
        push_slot(&mut content, o, *f, model, reads)?;
    }
    Ok(content)
}

fn features_of(metamodel: &Metamodel, class: ClassId) -> &[FeatureId]
    requires { class < length metamodel.now.classes }
    ensures features { result.now ≡ features_of metamodel.now class }
    ensures known { All (λ f. f < length metamodel.now.features) result.now }
{
    metamodel.features_of(class)
}

fn is_containment(metamodel: &Metamodel, f: FeatureId) -> bool
    requires { f < length metamodel.now.features }
    ensures { result ≡ is_containment metamodel.now f }
{
    metamodel.feature(f).containment
}

// The objects in the slot of one more feature, last, where it is a containment.
fn push_slot(
    content: &mut List<ObjectId>,
    o: ObjectId,
    f: FeatureId,
    model: &Model,
    reads: &mut Reads,
) -> Result<(), Halt>
    requires { f < length model.now.metamodel.features }
    ensures { Leaves (run (with_slot model.now.metamodel o content.old f) (contents model.now) reads.old) result content.new reads.new }
{
    if !is_containment(model.metamodel(), f) {
        return Ok(());
    }
    reads.note(Cell::Slot(o, f))?;
    push_objects(content, model.get(o, f))?;
    Ok(())
}

fn push_objects(objects: &mut List<ObjectId>, values: &[Scalar]) -> Result<(), AllocError>
    ensures { OnOk result (objects.new ≡ objects.old ++ objects_in values.now) }
{
    for value in values {
        if let Scalar::Object(o) = value {
            objects.push(*o)?;
        }
    }
    Ok(())
}
