use crate::refused;
use std::alloc::{AllocError, Global};
use wb_aql_check::{CheckRefusal, check};
use wb_aql_syntax::{Expr, Text, parse};
use wb_base::List;
use wb_metamodel::{Metamodel, read_metamodel};

const LIBRARY: &str = r#"
{"package":"lib","enums":[{"name":"Kind","literals":["novel","essay"]}],"classes":[
{"name":"Library","features":[{"name":"name","type":"Text"},
 {"name":"books","reference":"Book","many":true,"containment":true},
 {"name":"authors","reference":"Author","many":true,"containment":true},
 {"name":"members","reference":"Member","many":true,"containment":true},
 {"name":"loans","reference":"Loan","many":true,"containment":true},
 {"name":"branches","reference":"Library","many":true,"containment":true}]},
{"name":"Book","features":[{"name":"title","type":"Text"},{"name":"pages","type":"Int"},
 {"name":"kind","type":"Kind"},{"name":"author","reference":"Author","opposite":"books"},
 {"name":"loans","reference":"Loan","many":true,"opposite":"book"}]},
{"name":"Author","features":[{"name":"name","type":"Text"},
 {"name":"books","reference":"Book","many":true,"opposite":"author"}]},
{"name":"Member","features":[{"name":"name","type":"Text"},
 {"name":"loans","reference":"Loan","many":true,"opposite":"member"}]},
{"name":"Loan","features":[{"name":"book","reference":"Book","opposite":"loans"},
 {"name":"member","reference":"Member","opposite":"loans"}]}]}"#;

/// The metamodel of a library.
pub fn library(alloc: Global) -> Result<Metamodel, AllocError> {
    match read_metamodel(alloc, LIBRARY.as_bytes()) {
        Ok(metamodel) => Ok(metamodel),
        Err(_) => Err(AllocError),
    }
}

/// What the check answers to a line: the variables in scope, and an expression.
pub fn check_line(alloc: Global, metamodel: &Metamodel, line: &str) -> Result<Text, AllocError> {
    match line.split_once(" ; ") {
        Some((words, text)) => {
            let scope = names(alloc, words)?;
            check_text(alloc, metamodel, scope.as_slice(), text.as_bytes())
        }
        None => Text::from_str(alloc, "no case"),
    }
}

fn names(alloc: Global, words: &str) -> Result<List<Text>, AllocError> {
    let mut names = List::new(alloc);
    for word in words.split(' ') {
        names.push(Text::from_str(alloc, word)?)?;
    }
    Ok(names)
}

/// What the check answers to a text.
pub fn check_text(
    alloc: Global,
    metamodel: &Metamodel,
    scope: &[Text],
    text: &[u8],
) -> Result<Text, AllocError> {
    match parse(alloc, text) {
        Ok(expr) => check_expr(alloc, metamodel, scope, expr),
        Err(refusal) => refused(alloc, refusal),
    }
}

fn check_expr(
    alloc: Global,
    metamodel: &Metamodel,
    scope: &[Text],
    expr: Expr,
) -> Result<Text, AllocError> {
    match check(alloc, expr, scope, metamodel) {
        Ok(checked) => Ok(Text::from_string(format!(in alloc;
            "known in {}",
            checked.scope().len()
        )?)),
        Err(refusal) => shown(alloc, &refusal),
    }
}

/// The sort of a refusal, and the name that is told.
fn shown(alloc: Global, refusal: &CheckRefusal) -> Result<Text, AllocError> {
    match refusal {
        CheckRefusal::UnknownVariable(name) => named(alloc, "UnknownVariable", name),
        CheckRefusal::UnknownFeature(name) => named(alloc, "UnknownFeature", name),
        CheckRefusal::UnknownService(name) => named(alloc, "UnknownService", name),
        CheckRefusal::WrongArity(name) => named(alloc, "WrongArity", name),
        CheckRefusal::UnknownType(name) => named(alloc, "UnknownType", name),
        CheckRefusal::NoMemory => Err(AllocError),
    }
}

fn named(alloc: Global, sort: &str, name: &Text) -> Result<Text, AllocError> {
    Ok(Text::from_string(format!(in alloc; "{sort} {}", name.as_str())?))
}
