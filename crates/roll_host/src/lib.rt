//! A session in one thread, whose remote words come from others by links, and whose guesses are run by workers.
#![tactic(auto)]

mod absorb;
mod host;
mod limits;
mod pump;
mod request;
mod run;

pub use absorb::Absorbed;
pub use host::Host;
pub use limits::{LINK_LIMIT, TURN_LIMIT};
pub use pump::Pumped;
pub use request::{HostReply, HostRequest};
