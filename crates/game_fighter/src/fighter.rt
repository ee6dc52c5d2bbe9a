//! A fighter, and what one does in a frame.
ghost use Rattle.std.specs.Prelude.{◌≡◌};
ghost use Rattle.game_fighter.specs.Frame.{after_hits, cooled, hits, moved, placed, walked};
ghost use Rattle.game_fighter.specs.Ranges.{IsFighter};

use crate::buttons::Buttons;

/// The last place on the line; the first is 0.
const LAST_PLACE: u16 = 999;

/// The places that a fighter walks in a frame.
const WALK: u16 = 4;

/// A fighter hits another who is at most so many places away.
const REACH: u16 = 40;

/// What a hit costs.
const DAMAGE: u8 = 10;

/// The frames from a hit to the next.
const COOL: u8 = 12;

/// A fighter.
#[derive(Clone, Copy, Debug, PartialEq, Eq)]
pub struct Fighter {
    /// The place on the line, 0 to 999.
    pub place: u16,
    /// The health that is left, 0 to 100.
    pub health: u8,
    /// The frames until it can hit again, 0 to 12.
    pub cool: u8,
}

impl Fighter {
    /// A fighter at the opening.
    pub(crate) fn placed(place: u16) -> Fighter
        ensures { result ≡ placed place }
    {
        Fighter {
            place,
            health: 100,
            cool: 0,
        }
    }

    /// Cools and walks.
    pub(crate) fn moved(self, buttons: Buttons) -> Fighter
        ensures value { result ≡ moved buttons self }
        ensures in_range { IsFighter self → IsFighter result }
    {
        self.cooled().walked(buttons)
    }

    fn cooled(self) -> Fighter
        ensures { result ≡ cooled self }
    {
        Fighter {
            cool: self.cool.saturating_sub(1),
            ..self
        }
    }

    fn walked(self, buttons: Buttons) -> Fighter
        ensures { result ≡ walked buttons self }
    {
        let place = if buttons.left && !buttons.right {
            self.place.saturating_sub(WALK)
        } else if buttons.right && !buttons.left {
            self.place.saturating_add(WALK).min(LAST_PLACE)
        } else {
            self.place
        };
        Fighter { place, ..self }
    }

    /// Whether it hits the other with these buttons.
    pub(crate) fn hits(self, buttons: Buttons, other: Fighter) -> bool
        ensures { result ≡ hits buttons self other }
    {
        buttons.hit && self.cool == 0 && self.place.abs_diff(other.place) <= REACH
    }

    /// What is left of it where it gives a hit, and where it takes one.
    pub(crate) fn after_hits(self, gives: bool, takes: bool) -> Fighter
        ensures value { result ≡ after_hits gives takes self }
        ensures in_range { IsFighter self → IsFighter result }
    {
        Fighter {
            cool: if gives { COOL } else { self.cool },
            health: if takes {
                self.health.saturating_sub(DAMAGE)
            } else {
                self.health
            },
            ..self
        }
    }
}
