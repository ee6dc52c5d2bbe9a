//! States and snapshots.
ghost use Rattle.std.specs.Prelude.{◌≡◌, ◌+◌, ◌≤◌, ◌↔◌, ◌++◌, length, All, IfOk, OnOk, IsTrue};
ghost use Rattle.roll_duel.specs.Frame.{Field, frame_of, opening_of, after_ships};
ghost use Rattle.roll_duel.specs.Bytes.{bytes_of, field_of, step};
ghost use Rattle.roll_duel.specs.Ranges.{IsField};

use crate::bullet::Bullet;
use crate::bytes::{write_bullets, write_ships};
use crate::frame::{fly_bullets, land_bullets, run_ships};
use crate::ship::Ship;
use roll_frame::Row;
use std::alloc::{AllocError, Global};
use std::marker::Model;

/// The ships and the bullets that are on the field.
#[derive(Drop)]
pub struct State {
    ships: Vec<Ship>,
    bullets: Vec<Bullet>,
}

impl Model for State {
    ghost Value = { Field };

    ghost view = { λ s. record { ships = s.ships.items; bullets = s.bullets.items } };

    ghost invariant = { λ s. IsField (record { ships = s.ships.items; bullets = s.bullets.items }) };
}

impl State {
    /// The opening with two to four ships.
    pub(crate) fn opening(alloc: Global, count: u8) -> Result<State, AllocError>
        requires some { 2 ≤ count }
        requires few { count ≤ 4 }
        ensures { IfOk result (λ s. s ≡ opening_of count) }
    {
        let places = [
            Ship::placed(20_480, 15_360, 0),
            Ship::placed(61_440, 46_080, 4),
            Ship::placed(61_440, 15_360, 4),
            Ship::placed(20_480, 46_080, 0),
        ];
        Ok(State {
            ships: Vec::from_slice(alloc, &places[..usize::from(count)])?,
            bullets: Vec::new(alloc),
        })
    }

    /// The ships, ship 1 first.
    pub fn ships(&self) -> &[Ship]
        ensures value { result.now ≡ self.now.ships }
        ensures bytes { result.now ≡ (field_of (bytes_of self.now)).ships }
    {
        self.ships.as_slice()
    }

    /// The bullets, in order of their firing.
    pub fn bullets(&self) -> &[Bullet]
        ensures value { result.now ≡ self.now.bullets }
        ensures bytes { result.now ≡ (field_of (bytes_of self.now)).bullets }
        ensures few { length result.now ≤ 32 }
    {
        self.bullets.as_slice()
    }

    /// A second state that is the same.
    pub(crate) fn copy(&self, alloc: Global) -> Result<State, AllocError>
        ensures { IfOk result (λ s. s ≡ self.now) }
    {
        Ok(State {
            ships: Vec::from_slice(alloc, &self.ships)?,
            bullets: Vec::from_slice(alloc, &self.bullets)?,
        })
    }

    /// Whether two states are the same, which they are if their bytes are.
    pub(crate) fn is_same(&self, other: &State) -> bool
        ensures { IsTrue result ↔ (bytes_of self.now ≡ bytes_of other.now) }
    {
        same_ships(&self.ships, &other.ships) && same_bullets(&self.bullets, &other.bullets)
    }

    /// Runs a frame.
    pub(crate) fn advance(&mut self, row: &Row) -> Result<(), AllocError>
        ensures value { OnOk result (self.new ≡ frame_of self.old row.now) }
        ensures bytes { OnOk result (bytes_of self.new ≡ step (bytes_of self.old) row.now) }
    {
        run_ships(&mut self.ships, &mut self.bullets, row)?;
        fly_bullets(&mut self.bullets);
        land_bullets(&mut self.ships, &mut self.bullets);
        Ok(())
    }

    /// The state as bytes: the layout is that of a snapshot's.
    fn bytes(&self, alloc: Global) -> Result<Vec<u8>, AllocError>
        ensures { IfOk result (λ b. b.items ≡ bytes_of self.now) }
    {
        let mut bytes = Vec::new(alloc);
        bytes.push(self.ships.len() as u8)?;
        bytes.push(self.bullets.len() as u8)?;
        write_ships(&mut bytes, &self.ships)?;
        write_bullets(&mut bytes, &self.bullets)?;
        Ok(bytes)
    }
}

/// A saved state.
#[derive(Drop)]
pub struct Snapshot {
    pub(crate) state: State,
}

impl Snapshot {
    /// The ships, ship 1 first.
    pub fn ships(&self) -> &[Ship]
        ensures { result.now ≡ self.now.state.ships }
    {
        self.state.ships()
    }

    /// The bullets, in order of their firing.
    pub fn bullets(&self) -> &[Bullet]
        ensures { result.now ≡ self.now.state.bullets }
    {
        self.state.bullets()
    }

    /// The snapshot as bytes, to be stored or sent: 2, and 16 for each ship, and 14 for each bullet.
    ///
    /// Numbers are big-endian, signed ones in two's complement: the number of ships (1 byte), the number of bullets
    /// (1); of each ship x (4), y (4), vx (2), vy (2), heading (1), cool (1), hits (2); of each bullet owner (1),
    /// life (1), x (4), y (4), vx (2), vy (2).
    pub fn bytes(&self, alloc: Global) -> Result<Vec<u8>, AllocError>
        ensures { IfOk result (λ b. b.items ≡ bytes_of self.now.state) }
    {
        self.state.bytes(alloc)
    }
}

fn same_ships(a: &[Ship], b: &[Ship]) -> bool
    ensures { IsTrue result ↔ (a.now ≡ b.now) }
{
    a == b
}

fn same_bullets(a: &[Bullet], b: &[Bullet]) -> bool
    ensures { IsTrue result ↔ (a.now ≡ b.now) }
{
    a == b
}
