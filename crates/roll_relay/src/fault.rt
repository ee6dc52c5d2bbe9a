//! Why words can't be told.
use roll_frame::Refusal;
use thiserror::Error;

/// Why a session can't be told the words that are held back from it.
#[derive(Clone, Copy, Debug, PartialEq, Eq, Error)]
pub enum HeldFault {
    /// They aren't its next words: it was told others, or a player of theirs has left it.
    #[error("the words aren't the session's next ones")]
    OtherSession,
    /// There is no room for them in the session: its log is full, or there is no memory.
    #[error("{0}")]
    Session(Refusal),
}
