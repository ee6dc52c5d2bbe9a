//! The limits of epochs, each named once.
ghost use Rattle.std.specs.Prelude.{◌≡◌};

/// Who owns a player that isn't in the match: no such player is in any of its epochs.
pub const NO_MACHINE: u8 = 255;
/// Who owns a player that is free: nobody owns it now, and somebody who comes may get it.
pub const FREE: u8 = 254;
/// The greatest threshold.
pub const THRESHOLD_MOST: u8 = 15;
/// The greatest input delay, in frames.
pub const DELAY_MOST: u8 = 8;
/// The input delay of a player whose owner is another than before, in frames, if no mark says otherwise.
pub const FIRST_DELAY: u8 = 2;

/// The numbers that clauses cite by name.
pub fn limits_are()
    ensures nobody { NO_MACHINE ≡ 255 }
    ensures free { FREE ≡ 254 }
    ensures threshold { THRESHOLD_MOST ≡ 15 }
    ensures delay { DELAY_MOST ≡ 8 }
    ensures first_delay { FIRST_DELAY ≡ 2 }
{}
