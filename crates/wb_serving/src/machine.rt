//! Machines: what answers the requests of routes.
ghost use Rattle.std.specs.Prelude.{◌≡◌};
ghost use Rattle.wb_http.specs.declared.routes.Route.{Route};
ghost use Rattle.wb_serving.specs.Machines.{Law, MachineTold, Answers};

use std::alloc::Global;
use wb_http::Route;
use wb_outer::Bytes;

/// What a machine answers to a request.
#[derive(Drop)]
pub enum Answer {
    /// All bytes of the reply, as `write_response` of `wb_http` makes them.
    Made(Bytes),
    NoMemory,
    /// The keeper failed to keep what a command makes.
    Unkept,
}

/// What answers requests, over a state of its own.
pub trait Machine {
    ghost State: { Type 0 };

    ghost law: { Law State };

    ghost told: { Self → MachineTold State };

    /// Answers a request of a route, with this body. `close` says whether the connection closes after the reply. The
    /// reply is made whole before the state changes.
    fn answer(&mut self, alloc: Global, route: &Route, body: &[u8], close: bool) -> Answer
        requires { route.now ≡ Route.Stop → ⊥ }
        ensures { Answers law (told self.old) (told self.new) route.now body.now close result };
}
