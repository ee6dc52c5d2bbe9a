//! What a program sees of a line.

/// What was counted and measured of the packets between this machine and another.
#[derive(Clone, Copy, Debug, PartialEq, Eq)]
pub struct Stats {
    /// The milliseconds that a packet and its answer took, if that was measured.
    pub round_trip: Option<u32>,
    /// How many packets this machine sent to the other.
    pub sent: u32,
    /// How many packets of the other were heard.
    pub received: u32,
    /// How many packets of the other were lost, or are late.
    pub lost: u32,
    /// How many words the other hasn't said that it has, at most 140 of each player. 0 if nothing is sent to it.
    pub words_queued: u32,
    /// How many frames this machine is behind the other: negative if it is ahead.
    pub frames_behind: i32,
    /// How many frames the other says that it is behind this machine: negative if it is ahead.
    pub their_frames_behind: i32,
    /// How many packets that the other sealed were refused, or words in them.
    pub refused: u32,
    /// How many packets of the other called this machine gone.
    pub dropped: u32,
    /// Whether the other was opened anew in the middle of the match.
    pub restarted: bool,
}
