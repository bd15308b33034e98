ghost use Rattle.std.specs.Prelude.{◌≡◌, [], IfOk, OnOk, OnErr};
ghost use Rattle.wb_aql_values.specs.Runs.{with_read};

use indexmap::IndexSet;
use std::alloc::{AllocError, Global};
use std::marker::Model;
use wb_base::{Duplicate, List};
use wb_model::Cell;

/// The cells that were read, without repeats, in the order of first reading.
pub struct Reads {
    cells: IndexSet<Cell>,
}

impl Drop for Reads {
    fn drop(self) {
        let Reads { cells: _cells } = self;
    }
}

impl Model for Reads {
    ghost use Rattle.std.specs.Prelude.{List};
    ghost use Rattle.wb_store.specs.declared.scalars.Cell.{Cell};

    ghost Value = { List Cell };

    ghost view = { λ r. r.cells.keys };
}

impl Reads {
    /// No reads; takes no memory.
    pub fn new(alloc: Global) -> Reads
        ensures { result ≡ [] }
    {
        Reads {
            cells: IndexSet::new(alloc),
        }
    }

    /// Takes up a cell as read: it goes last, unless it is there.
    pub fn note(&mut self, cell: Cell) -> Result<(), AllocError>
        ensures ok { OnOk result (self.new ≡ with_read self.old cell) }
        ensures err { OnErr result (self.new ≡ self.old) }
    {
        self.cells.insert_full(cell)?;
        Ok(())
    }

    pub fn as_slice(&self) -> &[Cell]
        ensures { result.now ≡ self.now }
    {
        self.cells.as_slice()
    }

    /// The cells as a list.
    pub fn to_list(&self, alloc: Global) -> Result<List<Cell>, AllocError>
        ensures { IfOk result (λ cells. cells ≡ self.now) }
    {
        Ok(List::from_vec(self.cells.as_slice().to_vec(alloc)?))
    }
}

impl Duplicate for Reads {
    fn copy(&self, _alloc: Global) -> Result<Reads, AllocError> {
        Ok(Reads {
            cells: self.cells.clone()?,
        })
    }
}
