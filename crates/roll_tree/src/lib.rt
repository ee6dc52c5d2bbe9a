//! The saved states that can still matter, as a tree of rows.
#![tactic(auto)]

mod marks;
mod node;
mod prune;
mod tree;

pub use tree::{Above, Tree, TreeFull};
