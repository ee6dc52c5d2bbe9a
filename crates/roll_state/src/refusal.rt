//! Why no end was opened, and why bytes weren't heard.
use roll_wire::WireFault;
use thiserror::Error;

/// Why there is no giver of a state, or no taker.
#[derive(Clone, Copy, Debug, PartialEq, Eq, Error)]
pub enum StateFault {
    /// The state has no byte.
    #[error("a state of no bytes")]
    Empty,
    /// It has more bytes than the program allows, or 2^32 or more.
    #[error("a state of too many bytes")]
    TooLong,
    /// The allocator has no room for it.
    #[error("no memory")]
    NoMemory,
}

/// Why one end didn't hear bytes. Nothing is changed by them.
#[derive(Clone, Copy, Debug, PartialEq, Eq, Error)]
pub enum StateRefusal {
    /// They aren't sealed by this key, or were changed on their way, or are too few or too many.
    #[error("not sealed by this key, or changed on its way")]
    NotSealed,
    /// They are sealed by this key, and are no piece and no ask.
    #[error("{0}")]
    NoDatagram(WireFault),
    /// An ask came to a taker, or a piece to a giver.
    #[error("an ask for a taker, or a piece for a giver")]
    OtherKind,
    /// It is of another state.
    #[error("of another state")]
    OtherState,
    /// The sender is no machine of a match.
    #[error("no machine of a match sent it")]
    Stranger,
    /// The sender gave a whole state that was wrong.
    #[error("the sender gave a wrong state")]
    Barred,
    /// The pieces of another machine alone are taken for now.
    #[error("the pieces of another machine are taken for now")]
    NotNow,
    /// The state has no such piece.
    #[error("no such piece")]
    PastTheEnd,
    /// The piece has fewer or more bytes than the state's piece there has.
    #[error("a piece of another length")]
    WrongLength,
}
