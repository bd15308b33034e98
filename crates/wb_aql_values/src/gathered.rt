ghost use Rattle.std.specs.Prelude.{◌≡◌, [], length, IfOk, OnOk};
ghost use Rattle.wb_aql_values.specs.Values.{collection, put, with_member, with_members};
ghost use Rattle.wb_aql_values.specs.Runs.{Became};

use crate::faults::{Fault, Halt};
use crate::values::{Sort, Value};
use indexmap::IndexSet;
use std::alloc::{AllocError, Global};
use std::marker::Model;
use wb_base::List;
use wb_model::Scalar;

/// How many members a collection has at most.
const MAX_MEMBERS: usize = 65536;

/// Members that are being put together into a collection of one sort.
pub struct Gathered {
    members: Members,
}

#[derive(Drop)]
enum Members {
    Sequence(Vec<Scalar>),
    OrderedSet(IndexSet<Scalar>),
}

impl Drop for Gathered {
    fn drop(self) {
        let Gathered { members: _members } = self;
    }
}

impl Model for Gathered {
    ghost use Rattle.std.specs.Prelude.{List};
    ghost use Rattle.wb_store.specs.declared.scalars.Scalar.{Scalar};
    ghost use Rattle.wb_aql_values.specs.declared.values.Sort.{Sort};

    ghost Value = { Sort × List Scalar };

    ghost use Rattle.wb_aql_values.specs.Gathering.{gathered};

    ghost view = { λ g. gathered g.members };
}

impl Gathered {
    /// No members; takes no memory.
    pub fn new(alloc: Global, sort: Sort) -> Gathered
        ensures { result ≡ (sort, []) }
    {
        let members = match sort {
            Sort::Sequence => Members::Sequence(Vec::new(alloc)),
            Sort::OrderedSet => Members::OrderedSet(IndexSet::new(alloc)),
        };
        Gathered { members }
    }

    /// Puts a value last: of a collection each member, of null none.
    #[tactic(auto, unfolding(crate::specs::Values::put))]
    pub fn put(&mut self, value: Value) -> Result<(), Halt>
        ensures sort { OnOk result (self.new.0 ≡ self.old.0) }
        ensures put { Became result (put self.old.0 self.old.1 value) self.new.1 }
    {
        value.put_into(self)?;
        if self.len() > MAX_MEMBERS {
            return Err(Halt::Fault(Fault::TooLong));
        }
        Ok(())
    }

    #[tactic(auto, unfolding(crate::specs::Values::with_members))]
    pub(crate) fn put_all(&mut self, xs: List<Scalar>) -> Result<(), AllocError>
        ensures { OnOk result (self.new ≡ (self.old.0, with_members self.old.0 self.old.1 xs)) }
    {
        for x in xs.into_vec() {
            self.put_one(x)?;
        }
        Ok(())
    }

    // An ordered set keeps the first of equal members.
    pub(crate) fn put_one(&mut self, x: Scalar) -> Result<(), AllocError>
        ensures { OnOk result (self.new ≡ (self.old.0, with_member self.old.0 self.old.1 x)) }
    {
        match &mut self.members {
            Members::Sequence(members) => members.push(x)?,
            Members::OrderedSet(members) => {
                members.insert_full(x)?;
            }
        }
        Ok(())
    }

    fn len(&self) -> usize
        ensures { result ≡ length self.now.1 }
    {
        match &self.members {
            Members::Sequence(members) => members.len(),
            Members::OrderedSet(members) => members.len(),
        }
    }

    /// The collection of these members.
    pub fn into_value(self, alloc: Global) -> Result<Value, AllocError>
        ensures { IfOk result (λ value. value ≡ collection self.0 self.1) }
    {
        let Gathered { members } = self;
        match members {
            Members::Sequence(members) => Ok(Value::Sequence(List::from_vec(members))),
            Members::OrderedSet(members) => {
                let members = members.into_iter().collect(alloc)?;
                Ok(Value::OrderedSet(List::from_vec(members)))
            }
        }
    }
}
