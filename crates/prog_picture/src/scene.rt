//! What a picture shows.
use roll_frame::Claim;

/// A word of a player, as the session that the picture shows knew it.
#[derive(Clone, Copy, Debug, PartialEq, Eq)]
pub struct Cell {
    /// The word of this frame; of one that hasn't come, what is shown.
    pub word: u32,
    /// What was shown of it when the frame was first run.
    pub shown: u32,
    /// The session's frame in which the word was heard: a later one than its own if it came late. None if it hasn't come.
    pub heard: Option<u32>,
}

/// The words of a player.
#[derive(Drop)]
pub struct Lane {
    /// The player's number, from 1 on.
    pub player: u8,
    /// Whether the player is at the session's own machine.
    pub is_local: bool,
    /// One for each frame, from frame 0 on, up to the last that is known or was shown; none where the player wasn't there.
    pub cells: Vec<Option<Cell>>,
}

/// What came that differs from what was shown.
#[derive(Clone, Copy, Debug, PartialEq, Eq)]
pub enum Cause {
    /// A word of a player for a frame, the first of those that differ.
    Word { player: u8, frame: u32 },
    /// A player left: from this frame on it is gone.
    Leaving { player: u8, frame: u32 },
    /// Nothing: frames were run again whose states had been let go.
    Nothing,
}

/// A rollback.
#[derive(Clone, Copy, Debug, PartialEq, Eq)]
pub struct Roll {
    /// The session's frame as it came, up to which it ran again.
    pub at: u32,
    /// How many frames before that one it ran again; 0 if guesses had run them all.
    pub rerun: u32,
    /// How many frames GGPO runs again on the same words.
    pub ggpo: u32,
    /// What made it.
    pub cause: Cause,
}

/// What a picture shows.
#[derive(Drop)]
pub struct Scene {
    /// What was played, in words; any text. Of a longer one than `TITLE_LIMIT` characters the first are shown.
    pub title: String,
    /// The first frame that is shown.
    pub from: u32,
    /// The frame after the last one; at most `FRAME_LIMIT` frames are shown.
    pub to: u32,
    /// The players' words, 8 lanes at most.
    pub lanes: Vec<Lane>,
    /// The rollbacks in their order.
    pub rolls: Vec<Roll>,
    /// The claim of one of the rollbacks, whose saved states are shown.
    pub tree: Option<Claim>,
}

/// Which part of a play a picture is to show.
#[derive(Clone, Copy, Debug, PartialEq, Eq)]
pub struct Window {
    /// The first frame.
    pub from: u32,
    /// The frame after the last one.
    pub to: u32,
    /// The frame whose saved states are shown: those at its deepest rollback, or if it has none, at the first sync or
    /// advance that was made in it. None for those at the deepest rollback of all that are shown.
    pub tree: Option<u32>,
}

/// A picture that is asked for, and the picture once it is made: an SVG.
#[derive(Drop)]
pub struct Sight {
    /// What it is to show; none if no picture is asked for.
    pub window: Option<Window>,
    pub picture: Option<String>,
}
