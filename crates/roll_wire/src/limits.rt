//! The limits of datagrams, each named once.

/// What a datagram begins with: `FZG4`, whose last letter is the version.
pub const MAGIC: u32 = 0x465A_4734;
/// The most words in a datagram: whatever they are, so many fit.
pub const WORD_LIMIT: usize = 140;
/// The most bytes of a datagram.
pub const DATAGRAM_LIMIT: usize = 1_200;
