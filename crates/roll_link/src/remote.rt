//! What a link carries.

/// A remote player's word of a frame. Players are numbered from 1.
#[derive(Clone, Copy, Debug, PartialEq, Eq)]
pub struct Remote {
    pub player: u8,
    pub frame: u32,
    pub word: u32,
}
