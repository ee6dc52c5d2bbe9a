//! Sync tests: each row is run twice on a game, and the results are compared.
#![tactic(auto)]

mod first;
mod second;
mod sync_test;
mod verdict;

pub use sync_test::SyncTest;
pub use verdict::Verdict;
