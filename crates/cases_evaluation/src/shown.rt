//! How values and cells are shown.
use std::alloc::AllocError;
use wb_aql_values::{Answer, Value};
use wb_metamodel::{EnumId, FeatureId, Metamodel};
use wb_model::{Cell, Scalar};

pub fn push_answer(
    shown: &mut String,
    metamodel: &Metamodel,
    answer: &Answer,
) -> Result<(), AllocError> {
    match answer {
        Answer::Value(value) => push_value(shown, metamodel, value),
        Answer::Fault(fault) => write!(shown, "{fault:?}"),
    }
}

fn push_value(shown: &mut String, metamodel: &Metamodel, value: &Value) -> Result<(), AllocError> {
    match value {
        Value::Null => shown.push_str("null"),
        Value::One(x) => push_scalar(shown, metamodel, x),
        Value::Sequence(xs) => push_members(shown, metamodel, "Sequence", xs.as_slice()),
        Value::OrderedSet(xs) => push_members(shown, metamodel, "OrderedSet", xs.as_slice()),
    }
}

fn push_members(
    shown: &mut String,
    metamodel: &Metamodel,
    sort: &str,
    members: &[Scalar],
) -> Result<(), AllocError> {
    shown.push_str(sort)?;
    let mut before = "{";
    for x in members {
        shown.push_str(before)?;
        push_scalar(shown, metamodel, x)?;
        before = ", ";
    }
    shown.push_str(if members.is_empty() { "{}" } else { "}" })
}

fn push_scalar(shown: &mut String, metamodel: &Metamodel, x: &Scalar) -> Result<(), AllocError> {
    match x {
        Scalar::Int(n) => write!(shown, "{n}"),
        Scalar::Bool(b) => write!(shown, "{b}"),
        Scalar::Text(text) => write!(shown, "'{}'", text.as_str()),
        Scalar::Literal(e, l) => push_literal(shown, metamodel, *e, *l),
        Scalar::Object(o) => write!(shown, "#{}", o.0),
    }
}

fn push_literal(
    shown: &mut String,
    metamodel: &Metamodel,
    e: EnumId,
    literal: u32,
) -> Result<(), AllocError> {
    if e.0 < metamodel.enum_count() && literal < metamodel.literal_count(e) {
        return shown.push_str(metamodel.literal_name(e, literal).as_str());
    }
    shown.push_str("?")
}

/// Each cell after a space.
pub fn push_reads(
    shown: &mut String,
    metamodel: &Metamodel,
    reads: &[Cell],
) -> Result<(), AllocError> {
    for cell in reads {
        push_cell(shown, metamodel, cell)?;
    }
    Ok(())
}

fn push_cell(shown: &mut String, metamodel: &Metamodel, cell: &Cell) -> Result<(), AllocError> {
    match cell {
        Cell::Kind(o) => write!(shown, " Kind({})", o.0),
        Cell::Slot(o, f) => { write!(shown, " Slot({},{})", o.0, feature_name(metamodel, *f)) }
        Cell::Holder(o) => write!(shown, " Holder({})", o.0),
        Cell::Tree(o) => write!(shown, " Tree({})", o.0),
        Cell::Inverse(o) => write!(shown, " Inverse({})", o.0),
        Cell::Extent(c) => write!(shown, " Extent({})", c.0),
        Cell::Roots => shown.push_str(" Roots"),
    }
}

fn feature_name<'a>(metamodel: &'a Metamodel, f: FeatureId) -> &'a str {
    if f.0 < metamodel.feature_count() {
        return metamodel.feature(f).name.as_str();
    }
    "?"
}
