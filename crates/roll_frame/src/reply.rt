//! What a session replies.
use crate::refusal::Refusal;
use crate::row::Row;

/// The reply to one event. Players are numbered from 1; `from` is where a roll started, `rerun` how many frames it
/// advanced the game.
#[derive(Clone, Copy, Debug, PartialEq, Eq)]
pub enum Reply {
    /// The event was refused, and changed nothing.
    Refused(Refusal),
    /// A local word counts.
    Done,
    /// A remote word counts.
    Taken,
    /// The remote word counted already.
    Repeated,
    /// The player is gone.
    Disconnected { player: u8 },
    /// The row of the current frame.
    Synchronized(Row),
    /// The frame that was reached.
    Reached { frame: u32, from: u32, rerun: u32 },
    /// How many states a branch added.
    Grafted { added: u32 },
}
