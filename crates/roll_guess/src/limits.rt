//! The limits and weights of the choice, each named once.

/// The most guesses of a choice.
pub const GUESS_LIMIT: usize = 32;
/// How many frames without a word of the player are guessed, at most.
pub const UNKNOWN_LIMIT: u32 = 16;
/// How many changes are remembered.
pub const TURN_LIMIT: usize = 16;
/// How many words are remembered: those that a player may change to.
pub const KNOWN_LIMIT: usize = 8;
/// Held words are counted apart by how long they were held: less than 4 frames, less than 16, and longer.
pub const AGE_CLASSES: usize = 3;
/// The most parts of a word that a game names.
pub const PART_LIMIT: usize = 32;
/// Those, and one of the bits that are in none of them.
pub const ALL_PARTS: usize = PART_LIMIT + 1;
/// A score fades by one part in so many at each change.
pub const SCORE_FADE: u32 = 16;
/// The chance of what is certain: chances are parts of it.
pub const CERTAIN: u32 = 32_768;
/// The weight of a word of which nothing is known.
pub const PLAIN_WEIGHT: usize = 8;
/// The further weight of a change to the word from the word that is held.
pub const TURN_WEIGHT: usize = 4;
/// The rows of a job: a guess reaches so far past its last change.
pub const REACH: u32 = 8;
