//! Sessions of HTTP/1.1 over a connection: requests are cut from the front of what is read, a desk
//! replies to those that a route takes, and each gets its response. What a connection gets is fixed
//! by the bytes that it sent and by the desk's replies, however the bytes came in pieces.
#![tactic(auto)]

mod awaiting;
mod desks;
mod finding;
mod fronts;
mod inboxes;
mod judging;
mod laws;
mod part_names;
mod refusals;
mod rejections;
mod requests;
mod routes;
mod sending;
mod serving;
mod session_ends;

pub use desks::Desk;
pub use laws::{replies_are_fixed, session_is_fixed};
pub use part_names::PartName;
pub use refusals::Refusal;
pub use rejections::Rejection;
pub use routes::Route;
pub use serving::serve_connection;
pub use session_ends::SessionEnd;
