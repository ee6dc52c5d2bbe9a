//! How many links there may be, and how much a pump takes from each.

/// The most links of a host.
pub const LINK_LIMIT: usize = 4;
/// The most items that a pump takes from a link, and the most results that an absorb takes from the workers.
pub const TURN_LIMIT: u32 = 64;
