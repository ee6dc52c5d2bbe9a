//! The limits of slots and of requests, each named once.
ghost use Rattle.std.specs.Prelude.{◌≡◌};

use roll_frame::PATH_LIMIT;

/// States are saved in so many slots.
pub const SLOTS: usize = 1_024;
/// So many requests need no memory where none waits: no roll asks for more, even if each slot is to be freed.
pub(crate) const ROOM: usize = 1 + SLOTS + 2 * PATH_LIMIT;

/// The numbers that clauses cite by name.
pub fn limits_are()
    ensures slots { SLOTS ≡ 1_024 }
    ensures room { ROOM ≡ 1_073 }
{}
