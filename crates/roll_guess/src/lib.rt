//! Which guesses of a player's next words are worth making, by what was seen of the player in this match.
//!
//! A game notes each confirmed word of a player, and asks for the guesses that save the most frames. Nothing here takes
//! memory. How many frames they save was measured: `docs/MATCH.md`, "Which guesses".
#![tactic(auto)]

mod choice;
mod course;
mod habits;
mod limits;
mod part_choice;
mod part_course;
mod part_habits;
mod parts;
mod player;
mod ranking;

pub use habits::{Habits, Held, Tally, Turn};
pub use limits::{
    AGE_CLASSES, ALL_PARTS, CERTAIN, GUESS_LIMIT, KNOWN_LIMIT, PART_LIMIT, TURN_LIMIT,
    UNKNOWN_LIMIT,
};
pub use part_habits::{Part, PartHabits};
pub use parts::{PartsRefusal, WordParts};
pub use player::PlayerHabits;
pub use ranking::{Guess, Ranking, View};
