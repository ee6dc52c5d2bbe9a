//! Why a call is refused.
use roll_frame::Refusal;
use roll_member::JoinRefusal;
use thiserror::Error;

/// Why a match can't be opened.
#[derive(Clone, Copy, Debug, PartialEq, Eq, Error)]
pub enum OpenRefusal {
    /// The session can't take its seat.
    #[error("{0}")]
    Join(JoinRefusal),
    /// The settings have no draw: it is 0.
    #[error("the opening has no draw")]
    NoDraw,
    /// A number that the settings share with another machine of the match is 0. An epoch that follows another takes any.
    #[error("no number is shared with a machine")]
    NoNumber,
    /// The words of an input of this machine have not one delay in the session's settings.
    #[error("the words of an input have different delays")]
    Delays,
    /// The allocator has no room.
    #[error("no memory")]
    NoMemory,
}

/// The session isn't this match's: its settings are others than those of the session with which the match was opened,
/// it has more or fewer words of another machine's player than came, it has fewer of an own player than before, or
/// somebody left it who hasn't left the match. A session that was told of others past the match is such a one from then
/// on. One that was exchanged for another of equal settings, with as many words of each player and the same ones gone,
/// isn't found out.
#[derive(Clone, Copy, Debug, PartialEq, Eq, Error)]
#[error("the session isn't this match's")]
pub struct OtherSession;

/// Why a turn isn't made whole.
#[derive(Clone, Copy, Debug, PartialEq, Eq, Error)]
pub enum PeerRefusal {
    /// The session isn't this match's: [`OtherSession`].
    #[error("the session isn't this match's")]
    OtherSession,
    /// The session refuses it.
    #[error("{0}")]
    Session(Refusal),
}

/// Why no mark is put on a word.
#[derive(Clone, Copy, Debug, PartialEq, Eq, Error)]
pub enum MarkRefusal {
    /// The match takes no marks.
    #[error("the match takes no marks")]
    NotTaken,
    /// This machine has no such player, or it isn't the first word of an input.
    #[error("no such player here, or not the first word of an input")]
    NotOwn,
    /// The player has a mark already.
    #[error("the player has a mark already")]
    Marked,
    /// Somebody is to come who is to own no player.
    #[error("somebody is to come who is to own no player")]
    NoPlayer,
    /// The session isn't this match's: [`OtherSession`].
    #[error("the session isn't this match's")]
    OtherSession,
}
