//! Scripts that are played through a host with one link, and workers in threads of their own.
#![tactic(auto)]

mod engine;
mod output;
mod playing;
mod program;

pub use engine::live;
pub use program::{Live, run};
