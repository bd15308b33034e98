ghost use Rattle.std.specs.Prelude.{◌≡◌, IfOk, string_bytes};
ghost use Rattle.wb_diagram.specs.Units.{NamesPaths, unit_text};
ghost use Rattle.wb_diagram.specs.Diagrams.{problem_data};

use crate::diagrams::Problem;
use crate::unit_texts::push_unit;
use crate::units::Unit;
use crate::values::{Shown, put_text};
use serde_json::{Map, Value};
use std::alloc::{AllocError, Global};
use wb_base::Text;

// The written form of a unit.
fn unit_string(alloc: Global, unit: &Unit) -> Result<String, AllocError>
    ensures { IfOk result (λ text. string_bytes text ≡ unit_text unit.now) }
{
    let mut text = String::new(alloc);
    push_unit(&mut text, unit)?;
    Ok(text)
}

impl Shown for Problem {
    ghost is_writable = { λ _ problem. NamesPaths problem.at };

    ghost data_of = { λ _ problem. problem_data problem };

    #[tactic(auto, unfolding(crate::specs::Diagrams::problem_data))]
    fn shown(&self, alloc: Global, _names: &[Text]) -> Result<Value, AllocError> {
        let at = unit_string(alloc, &self.at)?;
        let mut members = Map::new(alloc);
        serde_json::put(&mut members, alloc, "at", Value::String(at))?;
        put_text(&mut members, alloc, "fault", self.fault.as_str())?;
        Ok(Value::Object(members))
    }
}
