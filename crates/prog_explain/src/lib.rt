//! What is told of a text if more is asked for than its answers: what is wrong with a line that can't be read, what
//! each refusal means, and scripts as pictures.
#![tactic(auto)]

mod explained;
mod pictured;
mod refusals;

pub use explained::{Notes, explain};
pub use pictured::show;
pub use refusals::{REFUSALS, push_refusals};
