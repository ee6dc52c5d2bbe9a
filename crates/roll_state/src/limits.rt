//! The limits of a state's datagrams, each named once.
ghost use Rattle.std.specs.Prelude.{◌≡◌};

/// The most bytes of a piece: each piece of a state has so many, but for the last one.
pub const PIECE_LIMIT: usize = 1_024;
/// The most pieces that one datagram asks for.
pub const ASK_LIMIT: usize = 16;
/// The kind of pieces.
pub(crate) const PIECE: u8 = 5;
/// The kind of asks.
pub(crate) const ASK: u8 = 6;

/// The numbers that clauses cite by name.
pub fn limits_are()
    ensures piece { PIECE_LIMIT ≡ 1024 }
    ensures asks { ASK_LIMIT ≡ 16 }
{}
