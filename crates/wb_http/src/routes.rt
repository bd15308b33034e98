//! The route of a method and a target.
ghost use Rattle.std.specs.Prelude.{◌≡◌, ◌≤◌, true, false, IfOk, Some, drop, length, bytes_eq, option_map};
ghost use Rattle.matchit.specs.Seek.{first};
ghost use Rattle.wb_base.specs.Answering.{AsDefined};
ghost use Rattle.wb_http.specs.Routes.{table, value_of, kind_of, is_element, method_of, route_at, routed, route_of, refusal_of, IsOrNoMemory};
ghost use Rattle.wb_http.specs.declared.routes.RouteRefusal.TheVariants.{NotAllowed};

use matchit::{InsertError, Router};
use std::alloc::{AllocError, Global};
use wb_base::Text;

/// What a request asks for.
#[derive(Drop)]
pub enum Route {
    Diagram,
    /// The element or edge of this key.
    Element(Text),
    Model,
    Command,
    Stop,
}

/// Why a request has no route.
#[derive(Drop)]
pub enum RouteRefusal {
    NotFound,
    /// The target takes this method alone.
    NotAllowed(Text),
    NoMemory,
}

/// The targets that are known.
#[derive(Clone, Copy)]
pub(crate) enum Target {
    Diagram,
    Element,
    Model,
    Command,
    Stop,
}

fn router(alloc: Global) -> Result<Router<Target>, InsertError>
    ensures { IfOk result (λ r. r ≡ table) }
{
    let mut router = Router::new(alloc);
    router.insert("/diagram", Target::Diagram)?;
    router.insert("/element/{key}", Target::Element)?;
    router.insert("/model", Target::Model)?;
    router.insert("/command", Target::Command)?;
    router.insert("/stop", Target::Stop)?;
    Ok(router)
}

fn kind_at(router: &Router<Target>, target: &str) -> Option<Target>
    ensures { result ≡ option_map value_of (first router.now target.now) }
{
    match router.at(target) {
        Ok(found) => Some(*found.value),
        Err(_) => None,
    }
}

fn find_kind(alloc: Global, target: &str) -> Result<Option<Target>, InsertError>
    ensures { IfOk result (λ kind. kind ≡ kind_of target.now) }
{
    let router = router(alloc)?;
    Ok(kind_at(&router, target))
}

fn allowed_method(kind: Target) -> &'static str
    ensures { result.now ≡ method_of kind }
{
    match kind {
        Target::Diagram => "GET",
        Target::Element => "GET",
        Target::Model => "GET",
        Target::Command => "POST",
        Target::Stop => "POST",
    }
}

// The key of an element's target.
fn key_of(alloc: Global, target: &str) -> Result<Text, AllocError>
    requires { is_element target.now ≡ true }
    ensures { IfOk result (λ key. key ≡ drop 9 target.now) }
{
    Text::from_slice(alloc, &target.as_bytes()[9..])
}

// The route to a target that is known.
fn route_to(alloc: Global, kind: Target, target: &str) -> Result<Route, AllocError>
    requires { kind_of target.now ≡ Some kind }
    ensures { IfOk result (λ route. route ≡ route_at kind target.now) }
{
    match kind {
        Target::Diagram => Ok(Route::Diagram),
        Target::Element => Ok(Route::Element(key_of(alloc, target)?)),
        Target::Model => Ok(Route::Model),
        Target::Command => Ok(Route::Command),
        Target::Stop => Ok(Route::Stop),
    }
}

fn refuse_method(alloc: Global, kind: Target) -> RouteRefusal
    ensures { IsOrNoMemory (NotAllowed (method_of kind)) result }
{
    match Text::from_str(alloc, allowed_method(kind)) {
        Ok(method) => RouteRefusal::NotAllowed(method),
        Err(_) => RouteRefusal::NoMemory,
    }
}

// The route by a target that is known.
fn route_known(
    alloc: Global,
    kind: Target,
    method: &[u8],
    target: &str,
) -> Result<Route, RouteRefusal>
    requires { kind_of target.now ≡ Some kind }
    ensures { AsDefined refusal_of (routed (Some kind) method.now target.now) result }
{
    if method == allowed_method(kind).as_bytes() {
        match route_to(alloc, kind, target) {
            Ok(route) => Ok(route),
            Err(_) => Err(RouteRefusal::NoMemory),
        }
    } else {
        Err(refuse_method(alloc, kind))
    }
}

fn route_found(
    alloc: Global,
    found: Option<Target>,
    method: &[u8],
    target: &str,
) -> Result<Route, RouteRefusal>
    requires { found ≡ kind_of target.now }
    ensures { AsDefined refusal_of (routed found method.now target.now) result }
{
    match found {
        None => Err(RouteRefusal::NotFound),
        Some(kind) => route_known(alloc, kind, method, target),
    }
}

fn route_text(alloc: Global, method: &[u8], target: &str) -> Result<Route, RouteRefusal>
    ensures { AsDefined refusal_of (routed (kind_of target.now) method.now target.now) result }
{
    match find_kind(alloc, target) {
        Ok(found) => route_found(alloc, found, method, target),
        Err(_) => Err(RouteRefusal::NoMemory),
    }
}

/// The route of a method and a target.
#[tactic(auto, unfolding(crate::specs::Routes::route_of))]
pub fn find_route(alloc: Global, method: &[u8], target: &[u8]) -> Result<Route, RouteRefusal>
    ensures { AsDefined refusal_of (route_of method.now target.now) result }
{
    match std::str::from_utf8(target) {
        Ok(text) => route_text(alloc, method, text),
        Err(_) => Err(RouteRefusal::NotFound),
    }
}
