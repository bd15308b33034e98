//! The services by `.`, each as a function of scalars that `lift` takes of a value.
ghost use Rattle.std.specs.Prelude.{◌≡◌, ◌<◌, ⊤, [], false, length};
ghost use Rattle.wb_aql_services.specs.Asked.{IsType};
ghost use Rattle.wb_aql_services.specs.Navigation.{from_object, of_object};
ghost use Rattle.wb_aql_services.specs.Services.{navigated};
ghost use Rattle.wb_aql_services.specs.Texts.{begins, concat, of_form};
ghost use Rattle.wb_aql_services.specs.Types.{as_type, conforms_to, is_exactly, tested};
ghost use Rattle.wb_aql_values.specs.Bounds.{IsBounded};
ghost use Rattle.wb_aql_values.specs.Readings.{contents, done};
ghost use Rattle.wb_aql_values.specs.Runs.{Gives, run};
ghost use Rattle.wb_aql_values.specs.Values.{flag};
ghost use Rattle.wb_aql_values.specs.declared.values.Value.TheVariants.{Null};

use crate::downwards::{e_all_contents, e_contents};
use crate::sidewards::{e_inverse, following, preceding, siblings};
use crate::texts::{begins, concat, form_of, look_whether_alive};
use crate::types::{cast, is_kind_of, is_type_of, object_in};
use crate::upwards::{ancestors, e_container};
use std::alloc::Global;
use wb_aql_values::{Fault, Halt, OnScalars, Reads, Value, flag, lift, look_at_class};
use wb_metamodel::{ClassId, ObjectId};
use wb_model::{Model, Scalar};

/// The services that start from an object.
#[derive(Clone, Copy)]
pub enum Navigation {
    EContainer,
    EContents,
    EAllContents,
    EInverse,
    Ancestors,
    Siblings,
    PrecedingSiblings,
    FollowingSiblings,
}

/// From an object to others; from null it leads to null.
pub fn navigate(
    alloc: Global,
    navigation: Navigation,
    asked: &Option<ClassId>,
    receiver: &Value,
    model: &Model,
    reads: &mut Reads,
) -> Result<Value, Halt>
    requires asked { IsType model.now.metamodel asked.now }
    requires receiver { IsBounded model.now.metamodel receiver.now }
    ensures { Gives (run (navigated model.now.metamodel navigation asked.now receiver.now) (contents model.now) reads.old) result reads.new }
{
    lift(
        alloc,
        &Navigating { navigation, asked },
        receiver,
        model,
        reads,
    )
}

#[derive(Drop)]
struct Navigating<'a> {
    navigation: Navigation,
    asked: &'a Option<ClassId>,
}

impl OnScalars for Navigating<'_> {
    ghost on_scalar = { λ f mm x. of_object (from_object mm f.navigation f.asked.now) x };

    ghost on_null = { λ f mm. done Null };

    ghost Needs = { λ f mm. IsType mm f.asked.now };

    fn of_scalar(
        &self,
        alloc: Global,
        x: &Scalar,
        model: &Model,
        reads: &mut Reads,
    ) -> Result<Value, Halt> {
        of_object(alloc, self.navigation, self.asked, x, model, reads)
    }

    fn of_null(&self, _alloc: Global, _model: &Model, _reads: &mut Reads) -> Result<Value, Halt> {
        Ok(Value::Null)
    }
}

/// `oclIsKindOf` a type.
#[derive(Drop)]
pub struct OfKind<'a> {
    pub asked: &'a Option<ClassId>,
}

impl OnScalars for OfKind<'_> {
    ghost on_scalar = { λ f mm x. tested (conforms_to mm f.asked.now) x };

    ghost on_null = { λ f mm. done (flag false) };

    ghost Needs = { λ f mm. IsType mm f.asked.now };

    fn of_scalar(
        &self,
        _alloc: Global,
        x: &Scalar,
        model: &Model,
        reads: &mut Reads,
    ) -> Result<Value, Halt> {
        is_kind_of(self.asked, x, model, reads)
    }

    fn of_null(&self, _alloc: Global, _model: &Model, _reads: &mut Reads) -> Result<Value, Halt> {
        Ok(flag(false))
    }
}

/// `oclIsTypeOf` a type.
#[derive(Drop)]
pub struct OfType<'a> {
    pub asked: &'a Option<ClassId>,
}

impl OnScalars for OfType<'_> {
    ghost on_scalar = { λ f mm x. tested (is_exactly f.asked.now) x };

    ghost on_null = { λ f mm. done (flag false) };

    ghost Needs = { λ f mm. ⊤ };

    fn of_scalar(
        &self,
        _alloc: Global,
        x: &Scalar,
        model: &Model,
        reads: &mut Reads,
    ) -> Result<Value, Halt> {
        is_type_of(self.asked, x, model, reads)
    }

    fn of_null(&self, _alloc: Global, _model: &Model, _reads: &mut Reads) -> Result<Value, Halt> {
        Ok(flag(false))
    }
}

/// `oclAsType` of a type.
#[derive(Drop)]
pub struct AsType<'a> {
    pub asked: &'a Option<ClassId>,
}

impl OnScalars for AsType<'_> {
    ghost on_scalar = { λ f mm x. as_type mm f.asked.now x };

    ghost on_null = { λ f mm. done Null };

    ghost Needs = { λ f mm. IsType mm f.asked.now };

    fn of_scalar(
        &self,
        _alloc: Global,
        x: &Scalar,
        model: &Model,
        reads: &mut Reads,
    ) -> Result<Value, Halt> {
        cast(self.asked, x, model, reads)
    }

    fn of_null(&self, _alloc: Global, _model: &Model, _reads: &mut Reads) -> Result<Value, Halt> {
        Ok(Value::Null)
    }
}

/// `concat` with a value.
#[derive(Drop)]
pub struct Joining<'a> {
    pub value: &'a Value,
}

impl OnScalars for Joining<'_> {
    ghost on_scalar = { λ f mm x. of_form mm (concat mm f.value.now) x };

    ghost on_null = { λ f mm. concat mm f.value.now [] };

    ghost Needs = { λ f mm. IsBounded mm f.value.now };

    fn of_scalar(
        &self,
        alloc: Global,
        x: &Scalar,
        model: &Model,
        reads: &mut Reads,
    ) -> Result<Value, Halt> {
        look_whether_alive(x, model, reads)?;
        let form = form_of(alloc, x, model.metamodel())?;
        concat(self.value, form, model, reads)
    }

    fn of_null(&self, alloc: Global, model: &Model, reads: &mut Reads) -> Result<Value, Halt> {
        concat(self.value, String::new(alloc), model, reads)
    }
}

/// `startsWith` a value.
#[derive(Drop)]
pub struct Starting<'a> {
    pub value: &'a Value,
}

impl OnScalars for Starting<'_> {
    ghost on_scalar = { λ f mm x. of_form mm (begins mm f.value.now) x };

    ghost on_null = { λ f mm. begins mm f.value.now [] };

    ghost Needs = { λ f mm. IsBounded mm f.value.now };

    fn of_scalar(
        &self,
        alloc: Global,
        x: &Scalar,
        model: &Model,
        reads: &mut Reads,
    ) -> Result<Value, Halt> {
        look_whether_alive(x, model, reads)?;
        let form = form_of(alloc, x, model.metamodel())?;
        begins(alloc, self.value, form, model, reads)
    }

    fn of_null(&self, alloc: Global, model: &Model, reads: &mut Reads) -> Result<Value, Halt> {
        begins(alloc, self.value, String::new(alloc), model, reads)
    }
}

// What needs an object looks at its class first, which a dead one has not.
fn of_object(
    alloc: Global,
    navigation: Navigation,
    asked: &Option<ClassId>,
    x: &Scalar,
    model: &Model,
    reads: &mut Reads,
) -> Result<Value, Halt>
    requires { IsType model.now.metamodel asked.now }
    ensures { Gives (run (of_object (from_object model.now.metamodel navigation asked.now) x.now) (contents model.now) reads.old) result reads.new }
{
    let Some(o) = object_in(x) else {
        return Err(Halt::Fault(Fault::NotAnObject));
    };
    let class = look_at_class(model, o, reads)?;
    from_object(alloc, navigation, asked, o, class, model, reads)
}

fn from_object(
    alloc: Global,
    navigation: Navigation,
    asked: &Option<ClassId>,
    o: ObjectId,
    class: ClassId,
    model: &Model,
    reads: &mut Reads,
) -> Result<Value, Halt>
    requires asked { IsType model.now.metamodel asked.now }
    requires class { class < length model.now.metamodel.classes }
    ensures { Gives (run (from_object model.now.metamodel navigation asked.now o class) (contents model.now) reads.old) result reads.new }
{
    match navigation {
        Navigation::EContainer => e_container(asked, o, model, reads),
        Navigation::EContents => e_contents(alloc, asked, o, class, model, reads),
        Navigation::EAllContents => e_all_contents(alloc, asked, o, model, reads),
        Navigation::EInverse => e_inverse(alloc, o, model, reads),
        Navigation::Ancestors => ancestors(alloc, asked, o, model, reads),
        Navigation::Siblings => siblings(alloc, o, model, reads),
        Navigation::PrecedingSiblings => preceding(alloc, o, model, reads),
        Navigation::FollowingSiblings => following(alloc, o, model, reads),
    }
}
