//! Why a call is declined.
ghost use Rattle.std.specs.Prelude.{◌≡◌};
ghost use Rattle.roll_requests.specs.Declined.{refusal_of};

use roll_frame::Refusal;
use std::alloc::AllocError;

/// Why a call is declined. It asks for nothing then.
#[derive(Clone, Copy, Debug)]
pub enum Declined {
    /// The session refuses it, or the allocator has no room.
    Refused(Refusal),
    /// Fewer slots are free than it needs.
    NoSlots,
}

impl Declined {
    /// The refusal that it comes to: too few slots are too little memory.
    pub fn refusal(self) -> Refusal
        ensures { result ≡ refusal_of self }
    {
        match self {
            Declined::Refused(why) => why,
            Declined::NoSlots => Refusal::NoMemory,
        }
    }
}

impl From<AllocError> for Declined {
    ghost use Rattle.std.specs.Prelude.{◌≡◌};
    ghost use Rattle.roll_frame.specs.declared.refusal.Refusal.TheVariants.{NoMemory};
    ghost use Rattle.roll_requests.specs.declared.declined.Declined.TheVariants.{Refused};

    ghost from_gives = { λ _ why. why ≡ Refused NoMemory };

    fn from(_none: AllocError) -> Declined {
        Declined::Refused(Refusal::NoMemory)
    }
}

impl From<Refusal> for Declined {
    ghost use Rattle.std.specs.Prelude.{◌≡◌};
    ghost use Rattle.roll_requests.specs.declared.declined.Declined.TheVariants.{Refused};

    ghost from_gives = { λ refusal why. why ≡ Refused refusal };

    fn from(refusal: Refusal) -> Declined {
        Declined::Refused(refusal)
    }
}
