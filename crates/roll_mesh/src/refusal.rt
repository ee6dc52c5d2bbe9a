//! Why a call is refused.
use thiserror::Error;

/// Why a call of a mesh is refused. Machines and players are counted from 0.
#[derive(Clone, Copy, Debug, PartialEq, Eq, Error)]
pub enum MeshRefusal {
    /// There are fewer than 2 or more than 8 machines, or this machine is none of them; or an input has no words or more than 4, or
    /// several owners, or more words than there are players left.
    #[error("no such seat")]
    InvalidSeat,
    /// There is no such machine in the match.
    #[error("no such machine")]
    InvalidMachine,
    /// The machine is this one.
    #[error("this machine itself")]
    OwnMachine,
    /// The machine is regarded as gone here.
    #[error("the machine is gone")]
    MachineGone,
    /// There is no such player, or another machine owns it.
    #[error("no player of this machine")]
    InvalidPlayer,
    /// The player has 4,294,967,295 words.
    #[error("the player has all words")]
    CountFull,
    /// A packet has words that its sender doesn't say that it has.
    #[error("the packet has more words than its sender")]
    Overstated,
    /// A packet has other frames, or another count, of one word of an input than of another.
    #[error("the packet has only some words of an input")]
    Uneven,
}
