//! Requests and replies of HTTP: a request from the bytes of a connection, the route of a target, a reply's bytes.
#![tactic(auto)]

mod ends;
mod fields;
mod heads;
mod held;
mod laws;
mod refusals;
mod replies;
mod requests;
mod responses;
mod routes;

pub use held::Held;
pub use laws::{less_is_short, one_answer, stays_decided};
pub use refusals::HttpRefusal;
pub use replies::{FixedReply, keeper_reply, no_memory_reply};
pub use requests::{Request, RequestEnd, read_request};
pub use responses::write_response;
pub use routes::{Route, RouteRefusal, find_route};
