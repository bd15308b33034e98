use std::alloc::{AllocError, Global};
use wb_aql_check::{Callee, Checked, Origin, Parameters, Service, service_named};
use wb_aql_syntax::{CallKind, Expr, Text, print};
use wb_aql_tokens::is_expression_name;
use wb_metamodel::ClassId;

/// Expressions that are made without a text, an extent, and a service by its name.
pub fn shown(alloc: Global) -> Result<Text, AllocError> {
    let variable = variable(alloc, "x")?;
    let feature = feature(alloc, "title")?;
    Ok(Text::from_string(format!(in alloc;
        "{} {} {} {}",
        variable.as_str(),
        feature.as_str(),
        extent(alloc),
        is_size()
    )?))
}

fn variable(alloc: Global, name: &str) -> Result<Text, AllocError> {
    if is_expression_name(name) {
        let expr = Expr::variable(Text::from_str(alloc, name)?);
        return print(alloc, &expr);
    }
    Text::from_str(alloc, "no name")
}

fn feature(alloc: Global, name: &str) -> Result<Text, AllocError> {
    if is_expression_name(name) {
        let expr = Expr::feature_of_self(alloc, Text::from_str(alloc, name)?)?;
        return print(alloc, &expr);
    }
    Text::from_str(alloc, "no name")
}

/// Is the extent of class 1 that of class 1, with nothing in scope?
fn extent(alloc: Global) -> bool {
    let checked = Checked::extent(alloc, ClassId(1));
    matches!(checked.origin(), Origin::Extent(ClassId(1))) && checked.scope().is_empty()
}

/// Is `size` a service that is called by `->`, and no other?
fn is_size() -> bool {
    let name = b"size".as_slice();
    matches!(
        service_named(CallKind::Arrow, name),
        Some((Callee::Service(Service::Size), Parameters::Nothing))
    ) && service_named(CallKind::Dot, name).is_none()
        && service_named(CallKind::Arrow, b"size\xff".as_slice()).is_none()
}
