//! Sessions whose game is played elsewhere: what a session would do with the game becomes a list of requests.
//!
//! The headline is `Leads`, which each call of [`Elsewhere`] keeps. It holds of a game of which nothing is known: of
//! every step function, whatever it does, and every opening. Once the requests are carried out, in their order, the
//! current state is the serial run of the rows that the session shows, and just the slots that are taken have a state:
//! each saved one that of its path, each of a job that of its rows. Nothing of this rests on names or digests of
//! states.
//!
//! By [`jobs_may_wait`] the requests of a job may be carried out later than those after them, on another thread, as
//! long as they are done before the job is grafted.
#![tactic(auto)]

mod asking;
mod closing;
mod declined;
mod elsewhere;
mod job;
mod limits;
mod networked;
mod performing;
mod plans;
mod queue;
mod request;
mod sufficing;
mod taken;
mod waiting;

pub use closing::Closing;
pub use declined::Declined;
pub use elsewhere::Elsewhere;
pub use job::JOBS_OUT;
pub use limits::{SLOTS, limits_are};
pub use request::Request;
pub use waiting::jobs_may_wait;
