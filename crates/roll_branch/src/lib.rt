//! Branches: rows that are run ahead of a session, from a state that it saved, by any engine of the same game.
#![tactic(auto)]

mod branch;
mod change;
mod job;
mod packed;
mod packing;
mod running;

pub use branch::{Branch, Done, Parts};
pub use job::Job;
pub use packed::PackedRoute;
pub use running::extend;
