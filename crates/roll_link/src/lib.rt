//! Remote words from other threads: a ring of 64 for each link, whose items come out once and in order.
#![tactic(auto)]

mod link;
mod remote;
mod run;
mod sender;

pub use link::{LINK_ROOM, Link};
pub use remote::Remote;
pub use sender::{Finished, LinkSender, SendFault};
