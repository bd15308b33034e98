//! Problems by words: the text of a diagram with one problem, of the unit that a line names.
ghost use Rattle.std.specs.Prelude.{IfOk, IfSome};
ghost use Rattle.wb_diagram.specs.Keys.{IsPath, IsWritable};
ghost use Rattle.wb_diagram.specs.Units.{NamesPaths};

use crate::asked::Asked;
use std::alloc::{AllocError, Global};
use wb_diagram::{AnyKey, Diagram, Key, List, Problem, Text, Unit, read_key, write_diagram};

/// `problem style 2 0.5`, `problem candidates 4 -` or `problem source - 4.5`: a sort, a number and a key, or `-` where there is none.
pub fn push_problem(
    alloc: Global,
    shown: &mut String,
    asked: &Asked<'_>,
) -> Result<bool, AllocError> {
    match unit(alloc, asked)? {
        Some(unit) => {
            let text = diagram_text(alloc, unit)?;
            shown.push_str(text.as_str())?;
            Ok(true)
        }
        None => Ok(false),
    }
}

fn diagram_text(alloc: Global, at: Unit) -> Result<Text, AllocError>
    requires { NamesPaths at }
{
    let fault = Text::from_str(alloc, "NotBool")?;
    let mut problems = List::new(alloc);
    problems.push(Problem { at, fault })?;
    let diagram = Diagram {
        elements: List::new(alloc),
        edges: List::new(alloc),
        filters: List::new(alloc),
        layers: List::new(alloc),
        problems,
        revision: 7,
    };
    write_diagram(alloc, &diagram, &[])
}

fn unit(alloc: Global, asked: &Asked<'_>) -> Result<Option<Unit>, AllocError>
    ensures { IfOk result (λ found. IfSome found NamesPaths) }
{
    match read_key(alloc, asked.value.as_bytes())? {
        Some(key) => Ok(keyed_unit(asked, key)),
        None => Ok(keyless_unit(asked)),
    }
}

fn keyless_unit(asked: &Asked<'_>) -> Option<Unit>
    ensures { IfSome result NamesPaths }
{
    let mapping = asked.feature.parse().ok()?;
    match asked.object {
        "candidates" => Some(Unit::Candidates {
            mapping,
            parent: None,
        }),
        "edge-candidates" => Some(Unit::EdgeCandidates { mapping }),
        _ => None,
    }
}

fn keyed_unit(asked: &Asked<'_>, key: AnyKey) -> Option<Unit>
    requires { IsWritable key }
    ensures { IfSome result NamesPaths }
{
    match asked.feature.parse() {
        Ok(number) => numbered_unit(asked.object, number, key),
        Err(_) => node_unit(asked.object, key),
    }
}

fn numbered_unit(sort: &str, number: u32, key: AnyKey) -> Option<Unit>
    requires { IsWritable key }
    ensures { IfSome result NamesPaths }
{
    match sort {
        "style" => Some(Unit::Style { style: number, key }),
        "label" => Some(Unit::Label { style: number, key }),
        "filter" => Some(Unit::Filter {
            filter: number,
            key,
        }),
        "candidates" => candidates(number, key),
        _ => None,
    }
}

fn candidates(mapping: u32, key: AnyKey) -> Option<Unit>
    requires { IsWritable key }
    ensures { IfSome result NamesPaths }
{
    match key {
        AnyKey::Node(key) => Some(Unit::Candidates {
            mapping,
            parent: Some(key),
        }),
        AnyKey::Edge(_) => None,
    }
}

fn node_unit(sort: &str, key: AnyKey) -> Option<Unit>
    requires { IsWritable key }
    ensures { IfSome result NamesPaths }
{
    match key {
        AnyKey::Node(key) => path_unit(sort, key),
        AnyKey::Edge(_) => None,
    }
}

fn path_unit(sort: &str, key: Key) -> Option<Unit>
    requires { IsPath key }
    ensures { IfSome result NamesPaths }
{
    let pair = key.pairs.as_slice()[0];
    match sort {
        "precondition" => Some(Unit::Precondition { key }),
        "edge-precondition" => Some(Unit::EdgePrecondition { pair }),
        "source" => Some(Unit::Source { pair }),
        "target" => Some(Unit::Target { pair }),
        _ => None,
    }
}
