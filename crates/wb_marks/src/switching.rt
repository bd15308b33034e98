ghost use Rattle.std.specs.Prelude.{◌≡◌, IfOk};
ghost use Rattle.wb_marks.specs.Marks.{switched, with_filter, with_layer};

use crate::lists::{put_one, without_one};
use crate::marks::Marks;
use std::alloc::{AllocError, Global};
use wb_base::{Duplicate, List};

impl Marks {
    /// An additional layer is switched, by its number.
    pub fn switch_layer(
        &self,
        alloc: Global,
        number: u32,
        active: bool,
    ) -> Result<Marks, AllocError>
        ensures { IfOk result (λ marks. marks ≡ with_layer number active self.now) }
    {
        let mut marks = self.copy(alloc)?;
        marks.layers = switched(alloc, &self.layers, number, active)?;
        Ok(marks)
    }

    /// A filter is switched, by its number.
    pub fn switch_filter(
        &self,
        alloc: Global,
        number: u32,
        active: bool,
    ) -> Result<Marks, AllocError>
        ensures { IfOk result (λ marks. marks ≡ with_filter number active self.now) }
    {
        let mut marks = self.copy(alloc)?;
        marks.filters = switched(alloc, &self.filters, number, active)?;
        Ok(marks)
    }
}

// The numbers of what is active, once this one is switched.
fn switched(
    alloc: Global,
    numbers: &List<u32>,
    number: u32,
    active: bool,
) -> Result<List<u32>, AllocError>
    ensures { IfOk result (λ list. list ≡ switched number active numbers.now) }
{
    if !active {
        return without_one(alloc, numbers.as_slice(), &number);
    }
    let mut list = numbers.copy(alloc)?;
    put_one(alloc, &mut list, &number)?;
    Ok(list)
}
