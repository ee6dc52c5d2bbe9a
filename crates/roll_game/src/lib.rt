//! What a game is to a rollback session, and to a text of its states; a small game, and a wrapper that refuses a game's calls.
#![tactic(auto)]

mod counts;
mod divergence;
mod game;
mod refusing;
mod shown;
mod steps;
mod tally;

pub use counts::{Call, Counts};
pub use divergence::never_diverges;
pub use game::{Game, NoMemory, RawGame, StartFault};
pub use refusing::Refusing;
pub use shown::Shown;
pub use steps::advance_and_save;
pub use tally::Tally;
