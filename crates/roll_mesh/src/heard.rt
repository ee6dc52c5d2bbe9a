//! What became of a packet.

/// What became of a packet that wasn't refused.
#[derive(Clone, Copy, Debug, PartialEq, Eq)]
pub enum Heard {
    /// It was taken.
    Taken,
    /// It was taken, and says that its sender regards this machine as gone: the match is over here.
    Dropped,
}
