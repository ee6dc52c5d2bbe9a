//! A remote word.

/// The most words that can be guessed with before they are told.
pub const FORETOLD_LIMIT: usize = 64;

/// A word of a remote player, who gave it in this frame.
#[derive(Clone, Copy, Debug, Default, PartialEq, Eq)]
pub struct RemoteWord {
    /// The player, from 1 on.
    pub player: u8,
    pub frame: u32,
    pub word: u32,
}
