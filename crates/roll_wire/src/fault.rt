//! Why bytes are no datagram.
use thiserror::Error;

/// What is wrong with the bytes: the first fault from left to right.
#[derive(Clone, Copy, Debug, PartialEq, Eq, Error)]
pub enum WireFault {
    /// The bytes end within a field.
    #[error("the datagram is cut off")]
    Short,
    /// They don't begin as a datagram of this version does.
    #[error("no datagram of this version")]
    Magic,
    /// There is no such kind of datagram.
    #[error("no such kind of datagram")]
    Kind,
    /// A flag is neither 0 nor 1.
    #[error("a flag that is neither 0 nor 1")]
    Flag,
    /// A short number has more bytes than it needs, or more than 32 bits.
    #[error("a short number that is too long")]
    Long,
    /// A mask has the place of a player of whom there is nothing.
    #[error("nothing where a mask says that something is")]
    Zero,
    /// The frame after a player's last word has more than 32 bits.
    #[error("words past the last frame")]
    TooFar,
    /// More than 140 words are offered.
    #[error("too many words")]
    TooMany,
    /// A mark, where none is read.
    #[error("a mark, which nobody reads yet")]
    Mark,
    /// A run is longer than the words that are left, or a word that is said to change doesn't.
    #[error("a wrong run of words")]
    Run,
    /// Bytes stand after the last field.
    #[error("bytes after the last field")]
    Trailing,
}
