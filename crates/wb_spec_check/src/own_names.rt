ghost use Rattle.std.specs.Prelude.{◌≡◌, ℕ, List, IfOk, map, take};
ghost use Rattle.wb_spec_check.specs.Findings.{own_name};
ghost use Rattle.wb_spec_check.specs.invariants.Findings.{Finds};
ghost use Rattle.wb_spec_check.specs.invariants.Known.{Numbers, place_in};

use std::alloc::{AllocError, Global};
use wb_ecore::NumberedNames;
use wb_expressions::ProblemCode;
use wb_json::Name;
use wb_viewpoint::{Filter, Layer, Mapping, Tool};

/// A part of a viewpoint that has a name of its own.
pub(crate) trait Titled {
    ghost title: { Self → List ℕ };

    fn title(&self) -> &Name
        ensures { result.now ≡ title self.now };
}

impl Titled for Layer {
    ghost title = { λ layer. layer.name };

    fn title(&self) -> &Name {
        &self.name
    }
}

impl Titled for Mapping {
    ghost title = { λ mapping. mapping.name };

    fn title(&self) -> &Name {
        &self.name
    }
}

impl Titled for Filter {
    ghost title = { λ filter. filter.name };

    fn title(&self) -> &Name {
        &self.name
    }
}

impl Titled for Tool {
    ghost title = { λ tool. tool.name };

    fn title(&self) -> &Name {
        &self.name
    }
}

/// The names of these items, each with its first place.
/// A count that no `u32` holds is taken as want of memory.
pub(crate) fn numbered<T: Titled>(alloc: Global, items: &[T]) -> Result<NumberedNames, AllocError>
    ensures { IfOk result (λ names. Numbers names (place_in (map T.title items.now))) }
{
    if items.len() > u32::MAX as usize {
        return Err(AllocError);
    }
    let mut names = NumberedNames::new(alloc);
    for (number, item) in items.iter().enumerate() {
        names.add(alloc, item.title().as_str().as_bytes(), number as u32)?;
    }
    Ok(names)
}

/// The name of the item of this number: it is its own where it does not stand before.
/// `first` has the first place of each name of the list.
pub(crate) fn own_name(first: &NumberedNames, number: usize, name: &str) -> Result<(), ProblemCode>
    ensures { (all : List (List ℕ)) → Numbers first.now (place_in all) → Finds name.now result (own_name (take number all) name.now) }
{
    match first.get(name.as_bytes()) {
        Some(place) if (place as usize) < number => Err(ProblemCode::DuplicateName),
        _ => Ok(()),
    }
}
