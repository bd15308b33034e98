ghost use Rattle.std.specs.Prelude.{◌≡◌, IfOk};
ghost use Rattle.serde_json.specs.View.{view};
ghost use Rattle.wb_diagram.specs.Diagrams.{IsWritableDiagram, diagram_data, diagram_text};

use crate::diagrams::Diagram;
use crate::values::{put_list, put_texts};
use serde_json::{Map, Value};
use std::alloc::{AllocError, Global};
use wb_base::Text;
use wb_json::write_json;

#[tactic(auto, unfolding(crate::specs::Diagrams::diagram_data))]
fn diagram_value(alloc: Global, diagram: &Diagram, names: &[Text]) -> Result<Value, AllocError>
    requires { IsWritableDiagram names.now diagram.now }
    ensures { IfOk result (λ value. view value ≡ diagram_data names.now diagram.now) }
{
    let mut members = Map::new(alloc);
    put_list(
        &mut members,
        alloc,
        "edges",
        diagram.edges.as_slice(),
        names,
    )?;
    put_list(
        &mut members,
        alloc,
        "elements",
        diagram.elements.as_slice(),
        names,
    )?;
    put_texts(&mut members, alloc, "filters", &diagram.filters)?;
    put_texts(&mut members, alloc, "layers", &diagram.layers)?;
    put_list(
        &mut members,
        alloc,
        "problems",
        diagram.problems.as_slice(),
        names,
    )?;
    serde_json::put(
        &mut members,
        alloc,
        "revision",
        Value::from(diagram.revision),
    )?;
    Ok(Value::Object(members))
}

/// The JSON text of a diagram. `names` are the names of the mappings by number.
#[tactic(auto, unfolding(crate::specs::Diagrams::diagram_text), using(crate::proofs::Floats::diagram_has_no_float))]
pub fn write_diagram(alloc: Global, diagram: &Diagram, names: &[Text]) -> Result<Text, AllocError>
    requires { IsWritableDiagram names.now diagram.now }
    ensures { IfOk result (λ text. text ≡ diagram_text names.now diagram.now) }
{
    let value = diagram_value(alloc, diagram, names)?;
    write_json(alloc, &value)
}
