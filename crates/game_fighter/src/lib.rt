//! A fight between two players, as a rollback session drives it: a game to copy and change.
//!
//! Two fighters stand on a line of the places 0 to 999. A player's word has bits: 1 walks left, 2 walks right, 4 hits;
//! the others are ignored. A player who is gone, or whom the row doesn't have, presses nothing, and cells past the
//! second are ignored.
//!
//! In a frame each fighter cools by one and walks 4 places, and stays on the line. Then, at the same time, each who
//! presses hit, has cooled and is at most 40 places from the other hits: that costs the other 10 health, and the one who
//! hit has to cool for 12 frames. `specs/Frame.antt` has each step.
#![tactic(auto)]

mod buttons;
mod fight;
mod fighter;
mod state;
#[cfg(test)]
mod tests;
mod text;

pub use fight::Fight;
pub use fighter::Fighter;
pub use state::State;
