//! What a session is asked, and what it answers.
use roll_branch::Branch;
use roll_frame::Refusal;
use roll_game::Game;
use thiserror::Error;

/// A call of a session that is given numbers alone. Players are numbered from 1.
#[derive(Clone, Copy, Debug, PartialEq, Eq)]
pub enum Call {
    /// `add_local_input`
    Local { player: u8, word: u32 },
    /// `remote_input`
    Remote { player: u8, frame: u32, word: u32 },
    /// `disconnect_player`
    Disconnect { player: u8 },
    /// `synchronize_input`
    Sync,
    /// `advance_frame`
    Advance,
}

/// What a session can be asked for: each event that its log can come to have, but for those that the game cuts short.
#[derive(Drop)]
pub enum Request<G: Game> {
    Call(Call),
    /// `graft`
    Graft(Branch<G>),
}

/// Where a step to the next frame led: the new frame, the length of the path that its roll started from, and how many
/// frames the game was advanced.
#[derive(Clone, Copy, Debug, PartialEq, Eq)]
pub struct Reached {
    pub frame: u32,
    pub from: u32,
    pub rerun: u32,
}

/// How many states a graft added.
#[derive(Clone, Copy, Debug, PartialEq, Eq)]
pub struct Grafted {
    pub added: u32,
}

/// Why a log was not replayed to its end: at the entry of this place, counted from 0.
#[derive(Clone, Copy, Debug, PartialEq, Eq, Error)]
pub enum ReplayFault {
    /// No call makes the entry: it is a graft, or a roll that the game cut short.
    #[error("entry {place} is no call")]
    NotACall { place: usize },
    /// The entry is a word that counts already.
    #[error("entry {place} repeats a word")]
    Repeated { place: usize },
    /// The rules refuse the entry.
    #[error("entry {place} is refused: {why}")]
    Refused { place: usize, why: Refusal },
    /// A growth was refused, or the game refused.
    #[error("out of memory at entry {place}")]
    NoMemory { place: usize },
}
