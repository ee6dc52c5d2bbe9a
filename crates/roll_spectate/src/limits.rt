//! How many spectators there may be, and what their rings have room for.

/// The most spectators of a feed.
pub const SPECTATOR_LIMIT: usize = 32;
/// The rows that a spectator's ring has room for.
pub const RING_ROWS: usize = 64;
