//! A match at one machine, as one value: its network, the inputs that it holds back from its session, what it carries for other machines,
//! and its epochs.
//!
//! A program has a session and a [`Match`] beside it, and a main loop of five calls. The laws here say what follows of two machines
//! that stay in a match through all of its epochs.
#![tactic(auto)]

mod going_out;
mod hearing;
mod lasting;
mod laws;
mod one;
mod opening;
mod pacing;
mod showing;
mod telling;
mod turning;
mod unheard;
mod waiting;

pub use lasting::Lasting;
pub use laws::{
    each_is_played, no_input_waits_longer, one_match, what_begins_is_called, what_ended_stays,
    what_goes_on, what_is_heard_is_called, what_is_judged, what_is_known_stays,
    what_is_sent_is_called,
};
pub use one::Match;
pub use turning::Turn;
pub use unheard::{Unheard, Unmarked};
