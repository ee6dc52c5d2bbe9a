//! The log's entries.
use crate::boxed::Boxed;
use crate::route::Route;

/// An accepted event of a session, as the definitions have it in its log. Players are numbered from 1.
#[derive(Debug, Drop)]
pub enum Entry {
    /// A local word, of the frame the session is at.
    Local { player: u8, word: u32 },
    /// A remote word.
    Remote { player: u8, frame: u32, word: u32 },
    /// The player has left.
    Disconnect { player: u8 },
    /// A roll to the current frame.
    Sync,
    /// A roll to the next frame, which becomes the current one.
    Advance,
    /// A branch: its job's number, and where it ran. A log keeps both apart, since it has many entries, and few of these.
    Graft { ticket: u64, route: Boxed<Route> },
    /// The game refused in a roll to a frame, after so many new states were saved.
    Partial { to: u32, made: u32 },
}
