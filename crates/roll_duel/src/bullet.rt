//! Bullets, and what one does in a frame.
ghost use Rattle.std.specs.Prelude.{◌≡◌, ◌<◌, ◌≤◌, ◌+◌};
ghost use Rattle.roll_duel.specs.Bullets.{flown, is_near as near, hits as reaches};
ghost use Rattle.roll_duel.specs.Ranges.{IsShip, IsBullet};

use crate::ship::Ship;
use crate::space::{HEIGHT, WIDTH, distance, moved_by};

/// A bullet hits a ship that is at most so far from it in each direction.
const REACH: u32 = 2_048;

/// A bullet. Lengths are in 1/256 of a unit.
#[derive(Clone, Copy, Debug, PartialEq, Eq)]
pub struct Bullet {
    /// The number of the ship that fired it, from 1.
    pub owner: u8,
    /// The frames until it vanishes, 1 to 60.
    pub life: u8,
    /// The place from the left, below 81,920.
    pub x: u32,
    /// The place from the top, below 61,440.
    pub y: u32,
    /// The speed to the right, -1,024 to 1,024 a frame.
    pub vx: i16,
    /// The speed downwards, -1,024 to 1,024 a frame.
    pub vy: i16,
}

impl Bullet {
    /// Moves by its speed, and has one frame less to live.
    pub(crate) fn fly(&mut self)
        requires { IsBullet self.old }
        ensures value { self.new ≡ flown self.old }
        ensures in_range { IsBullet self.new }
    {
        self.x = moved_by(WIDTH, self.vx, self.x);
        self.y = moved_by(HEIGHT, self.vy, self.y);
        self.life = self.life.saturating_sub(1);
    }

    /// Whether it hits the ship of this number.
    pub(crate) fn hits(&self, number: usize, ship: &Ship) -> bool
        requires bullet { IsBullet self.now }
        requires ship { IsShip ship.now }
        ensures { result ≡ reaches self.now number ship.now }
    {
        number != usize::from(self.owner) && self.is_near(ship)
    }

    fn is_near(&self, ship: &Ship) -> bool
        requires bullet { IsBullet self.now }
        requires ship { IsShip ship.now }
        ensures { result ≡ near self.now ship.now }
    {
        distance(WIDTH, ship.x, self.x) <= REACH && distance(HEIGHT, ship.y, self.y) <= REACH
    }
}
