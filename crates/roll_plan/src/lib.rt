//! Plans of rolls: where a roll starts, and what it claims of itself.
#![tactic(auto)]

mod plan;
mod planner;
mod rank;

pub use plan::Plan;
pub use planner::Planner;
