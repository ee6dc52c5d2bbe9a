//! What a session tells its caller.
ghost use Rattle.std.specs.Prelude.{◌≡◌, pos};
ghost use Rattle.roll_frame.specs.Codes.{event_code_of};

/// A notification to the caller, as GGPO's events.
#[derive(Clone, Copy, Debug, PartialEq, Eq)]
pub enum Event {
    /// The player is disconnected from now on.
    DisconnectedFromPeer {
        /// The player's number, from 1.
        player: u8,
    },
    /// The local side is ahead, and should wait for the other side.
    TimeSync {
        /// How many frames to wait.
        frames_ahead: u32,
    },
}

impl Event {
    /// The event's number, that of `ggponet.h`.
    pub fn code(&self) -> i32
        ensures { result ≡ pos (event_code_of self.now) }
    {
        match self {
            Event::DisconnectedFromPeer { .. } => 1004,
            Event::TimeSync { .. } => 1005,
        }
    }
}
