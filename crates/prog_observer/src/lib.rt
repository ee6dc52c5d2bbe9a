//! What is seen of a session while it is played: when words came, what had been shown, and what was run again.
#![tactic(auto)]

mod change;
mod hearing;
mod observer;

pub use observer::Observer;
