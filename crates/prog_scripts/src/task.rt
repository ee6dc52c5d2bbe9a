//! What is to be done with a text.
use crate::ending::GameName;

/// What is to be done with a text.
#[derive(Clone, Copy, Debug, PartialEq, Eq)]
pub enum Task {
    /// The text is a script, to be played with this game.
    Play(GameName),
    /// The text is a file of rows, with which this game is tested, so many frames at once.
    SyncTest { game: GameName, frames: u32 },
    /// The text is a claim, to be checked.
    Certify,
}
