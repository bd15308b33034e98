ghost use Rattle.std.specs.Prelude.{◌≡◌};
ghost use Rattle.wb_aql_check.specs.Services.{service_named};
ghost use Rattle.wb_aql_grammar.specs.declared.expr.CallKind.TheVariants.{Dot, Arrow};

use wb_aql_syntax::CallKind;

/// A service that takes no lambda. Those up to `StartsWith` are called by `.`, the others by `->`.
#[derive(Clone, Copy)]
pub enum Service {
    EContainer,
    EContents,
    EAllContents,
    EInverse,
    Ancestors,
    Siblings,
    PrecedingSiblings,
    FollowingSiblings,
    OclIsKindOf,
    OclIsTypeOf,
    OclAsType,
    Concat,
    StartsWith,
    Filter,
    First,
    Last,
    At,
    Size,
    IsEmpty,
    NotEmpty,
    Includes,
    Excludes,
    Including,
    Excluding,
    AsSequence,
    AsOrderedSet,
}

/// A service that takes a lambda. Each is called by `->`.
#[derive(Clone, Copy)]
pub enum Iteration {
    Select,
    Reject,
    Collect,
    Exists,
    ForAll,
    Any,
}

/// What a service's name stands for.
#[derive(Clone, Copy)]
pub enum Callee {
    Service(Service),
    Iteration(Iteration),
}

/// What a service takes between its parentheses.
#[derive(Clone, Copy)]
pub enum Parameters {
    Nothing,
    /// Nothing or one type.
    MaybeType,
    Type,
    /// One expression.
    Value,
    Lambda,
}

/// The service of that name by `.` or by `->`, and what it takes.
pub fn service_named(kind: CallKind, name: &[u8]) -> Option<(Callee, Parameters)>
    ensures { result ≡ service_named kind name.now }
{
    match std::str::from_utf8(name) {
        Ok(name) => named(kind, name),
        Err(_) => None,
    }
}

fn named(kind: CallKind, name: &str) -> Option<(Callee, Parameters)>
    ensures { result ≡ service_named kind name.now }
{
    match kind {
        CallKind::Dot => named_by_dot(name),
        CallKind::Arrow => named_by_arrow(name),
    }
}

fn named_by_dot(name: &str) -> Option<(Callee, Parameters)>
    ensures { result ≡ service_named Dot name.now }
{
    match name {
        "eContainer" => Some((Callee::Service(Service::EContainer), Parameters::MaybeType)),
        "eContents" => Some((Callee::Service(Service::EContents), Parameters::MaybeType)),
        "eAllContents" => Some((
            Callee::Service(Service::EAllContents),
            Parameters::MaybeType,
        )),
        "eInverse" => Some((Callee::Service(Service::EInverse), Parameters::Nothing)),
        "ancestors" => Some((Callee::Service(Service::Ancestors), Parameters::MaybeType)),
        "siblings" => Some((Callee::Service(Service::Siblings), Parameters::Nothing)),
        "precedingSiblings" => Some((
            Callee::Service(Service::PrecedingSiblings),
            Parameters::Nothing,
        )),
        "followingSiblings" => Some((
            Callee::Service(Service::FollowingSiblings),
            Parameters::Nothing,
        )),
        "oclIsKindOf" => Some((Callee::Service(Service::OclIsKindOf), Parameters::Type)),
        "oclIsTypeOf" => Some((Callee::Service(Service::OclIsTypeOf), Parameters::Type)),
        "oclAsType" => Some((Callee::Service(Service::OclAsType), Parameters::Type)),
        "concat" => Some((Callee::Service(Service::Concat), Parameters::Value)),
        "startsWith" => Some((Callee::Service(Service::StartsWith), Parameters::Value)),
        _ => None,
    }
}

fn named_by_arrow(name: &str) -> Option<(Callee, Parameters)>
    ensures { result ≡ service_named Arrow name.now }
{
    match name {
        "select" => Some((Callee::Iteration(Iteration::Select), Parameters::Lambda)),
        "reject" => Some((Callee::Iteration(Iteration::Reject), Parameters::Lambda)),
        "collect" => Some((Callee::Iteration(Iteration::Collect), Parameters::Lambda)),
        "exists" => Some((Callee::Iteration(Iteration::Exists), Parameters::Lambda)),
        "forAll" => Some((Callee::Iteration(Iteration::ForAll), Parameters::Lambda)),
        "any" => Some((Callee::Iteration(Iteration::Any), Parameters::Lambda)),
        "filter" => Some((Callee::Service(Service::Filter), Parameters::Type)),
        "first" => Some((Callee::Service(Service::First), Parameters::Nothing)),
        "last" => Some((Callee::Service(Service::Last), Parameters::Nothing)),
        "at" => Some((Callee::Service(Service::At), Parameters::Value)),
        "size" => Some((Callee::Service(Service::Size), Parameters::Nothing)),
        "isEmpty" => Some((Callee::Service(Service::IsEmpty), Parameters::Nothing)),
        "notEmpty" => Some((Callee::Service(Service::NotEmpty), Parameters::Nothing)),
        "includes" => Some((Callee::Service(Service::Includes), Parameters::Value)),
        "excludes" => Some((Callee::Service(Service::Excludes), Parameters::Value)),
        "including" => Some((Callee::Service(Service::Including), Parameters::Value)),
        "excluding" => Some((Callee::Service(Service::Excluding), Parameters::Value)),
        "asSequence" => Some((Callee::Service(Service::AsSequence), Parameters::Nothing)),
        "asOrderedSet" => Some((Callee::Service(Service::AsOrderedSet), Parameters::Nothing)),
        _ => None,
    }
}
