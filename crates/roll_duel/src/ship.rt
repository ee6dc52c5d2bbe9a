//! Ships, and what one does in a frame.
ghost use Rattle.std.specs.Prelude.{◌≡◌, ◌<◌, ◌≤◌, ◌+ℤ◌, ◌*ℤ◌, pos};
ghost use Rattle.roll_duel.specs.Ships.{direction as direction_of, held, turned, thrust as thrust_of, steered, shot_by, moved, placed};
ghost use Rattle.roll_duel.specs.Bullets.{hit};
ghost use Rattle.roll_duel.specs.Ranges.{IsShip, IsBullet, IsSpeed};

use crate::bullet::Bullet;
use crate::pad::Pad;
use crate::space::{HEIGHT, WIDTH, moved_by};

/// The most that a ship moves in a frame, in each direction.
const MOST_SPEED: i16 = 512;

/// The number of headings.
const HEADINGS: u8 = 8;

/// What a heading adds to a speed, to the right and downwards.
const DIRECTIONS: [(i16, i16); 8] = [
    (16, 0),
    (11, 11),
    (0, 16),
    (-11, 11),
    (-16, 0),
    (-11, -11),
    (0, -16),
    (11, -11),
];

/// A bullet leaves the ship at this many times the ship's direction.
const SHOT_SPEED: i16 = 32;

/// The frames that a bullet lives.
const SHOT_LIFE: u8 = 60;

/// A ship. Lengths are in 1/256 of a unit.
#[derive(Clone, Copy, Debug, PartialEq, Eq)]
pub struct Ship {
    /// The place from the left, below 81,920.
    pub x: u32,
    /// The place from the top, below 61,440.
    pub y: u32,
    /// The speed to the right, -512 to 512 a frame.
    pub vx: i16,
    /// The speed downwards, -512 to 512 a frame.
    pub vy: i16,
    /// One of eight headings: 0 is to the right, 2 is downwards.
    pub heading: u8,
    /// The frames until it can fire again, at most 8.
    pub cool: u8,
    /// How often it was hit; 65,535 stays.
    pub hits: u16,
}

impl Ship {
    /// A ship at the opening.
    pub(crate) fn placed(x: u32, y: u32, heading: u8) -> Ship
        ensures { result ≡ placed x y heading }
    {
        Ship {
            x,
            y,
            vx: 0,
            vy: 0,
            heading,
            cool: 0,
            hits: 0,
        }
    }

    /// Turns, thrusts and cools its gun.
    pub(crate) fn steer(&mut self, pad: Pad)
        requires { IsShip self.old }
        ensures value { self.new ≡ steered pad self.old }
        ensures in_range { IsShip self.new }
    {
        self.turn(pad);
        self.thrust(pad);
        self.cool = self.cool.saturating_sub(1);
    }

    fn turn(&mut self, pad: Pad)
        requires { IsShip self.old }
        ensures value { self.new ≡ turned pad self.old }
        ensures in_range { IsShip self.new }
    {
        if pad.left && !pad.right {
            self.heading = (self.heading + (HEADINGS - 1)) % HEADINGS;
        } else if pad.right && !pad.left {
            self.heading = (self.heading + 1) % HEADINGS;
        }
    }

    fn thrust(&mut self, pad: Pad)
        requires { IsShip self.old }
        ensures value { self.new ≡ thrust_of pad self.old }
        ensures in_range { IsShip self.new }
    {
        if pad.thrust {
            let (dx, dy) = direction(self.heading);
            self.vx = pushed(self.vx, dx);
            self.vy = pushed(self.vy, dy);
        }
    }

    /// The bullet that it fires, as the ship of this number.
    pub(crate) fn shot(&self, number: u8) -> Bullet
        requires fine { IsShip self.now }
        requires few { number ≤ 4 }
        ensures value { result ≡ shot_by number self.now }
        ensures in_range { IsBullet result }
    {
        let (dx, dy) = direction(self.heading);
        Bullet {
            owner: number,
            life: SHOT_LIFE,
            x: self.x,
            y: self.y,
            vx: shot_speed(self.vx, dx),
            vy: shot_speed(self.vy, dy),
        }
    }

    /// Moves by its speed.
    pub(crate) fn advance(&mut self)
        requires { IsShip self.old }
        ensures value { self.new ≡ moved self.old }
        ensures in_range { IsShip self.new }
    {
        self.x = moved_by(WIDTH, self.vx, self.x);
        self.y = moved_by(HEIGHT, self.vy, self.y);
    }

    /// Counts a hit.
    pub(crate) fn take_hit(&mut self)
        requires { IsShip self.old }
        ensures value { self.new ≡ hit self.old }
        ensures in_range { IsShip self.new }
    {
        self.hits = self.hits.saturating_add(1);
    }
}

/// What a heading adds to a speed.
fn direction(heading: u8) -> (i16, i16)
    requires { heading < 8 }
    ensures value { result ≡ direction_of heading }
    ensures dx { IsSpeed 16 result.0 }
    ensures dy { IsSpeed 16 result.1 }
{
    DIRECTIONS[usize::from(heading)]
}

/// A ship's speed after a thrust, held to what a ship may have.
fn pushed(speed: i16, push: i16) -> i16
    requires slow { IsSpeed 512 speed }
    requires small { IsSpeed 16 push }
    ensures value { result ≡ held (speed +ℤ push) }
    ensures in_range { IsSpeed 512 result }
{
    (speed + push).clamp(-MOST_SPEED, MOST_SPEED)
}

/// The speed of a bullet that a ship of this speed fires.
fn shot_speed(speed: i16, push: i16) -> i16
    requires slow { IsSpeed 512 speed }
    requires small { IsSpeed 16 push }
    ensures value { result ≡ speed +ℤ (pos 32 *ℤ push) }
    ensures in_range { IsSpeed 1024 result }
{
    speed + SHOT_SPEED * push
}
