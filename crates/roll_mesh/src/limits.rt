//! The limits of a match, each named once.
ghost use Rattle.std.specs.Prelude.{◌≡◌};

/// The most machines of a match: they are numbered 0 to 7.
pub const MACHINE_LIMIT: usize = 8;
/// The most players of a match: they are numbered 0 to 7, and 1 to 8 in a session.
pub const PLAYER_LIMIT: usize = 8;
/// The most words that an input has.
pub const INPUT_LIMIT: u8 = 4;

/// The numbers that clauses cite by name.
pub fn limits_are()
    ensures machines { MACHINE_LIMIT ≡ 8 }
    ensures players { PLAYER_LIMIT ≡ 8 }
    ensures inputs { INPUT_LIMIT ≡ 4 }
{}
