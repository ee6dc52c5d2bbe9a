//! A frame: the ships take their turns, and then the bullets fly.
ghost use Rattle.std.specs.Prelude.{◌≡◌, ◌<◌, ◌≤◌, ◌+◌, length, map, filter, fold, All, OnOk, vec_len};
ghost use Rattle.roll_duel.specs.Ships.{ship_after, bullets_after};
ghost use Rattle.roll_duel.specs.Bullets.{flown, struck, hits_any, remains};
ghost use Rattle.roll_duel.specs.Frame.{Field, after_ships};
ghost use Rattle.roll_duel.specs.Ranges.{IsShip, IsBullet};

use crate::bullet::Bullet;
use crate::pad::Pad;
use crate::ship::Ship;
use roll_frame::Row;
use std::alloc::AllocError;

/// The most bullets that are in flight.
const MOST_BULLETS: usize = 32;

/// The frames from a shot to the next.
const COOL: u8 = 8;

/// The ships take their turns, in order of number.
pub(crate) fn run_ships(
    ships: &mut Vec<Ship>,
    bullets: &mut Vec<Bullet>,
    row: &Row,
) -> Result<(), AllocError>
    requires few_ships { length ships.old.items ≤ 4 }
    requires few_bullets { length bullets.old.items ≤ 32 }
    requires ships_in { All IsShip ships.old.items }
    requires bullets_in { All IsBullet bullets.old.items }
    ensures value { OnOk result (after_ships row.now 0 ships.old.items bullets.old.items ≡ record {
      ships = ships.new.items;
      bullets = bullets.new.items;
    }) }
    ensures as_many { length ships.new.items ≡ length ships.old.items }
    ensures still_few { length bullets.new.items ≤ 32 }
    ensures ships_still_in { All IsShip ships.new.items }
    ensures bullets_still_in { All IsBullet bullets.new.items }
{
    for place in 0..ships.len() {
        let mut ship = ships[place];
        run_ship(
            &mut ship,
            Pad::of_player(row, place),
            place as u8 + 1,
            bullets,
        )?;
        ships[place] = ship;
    }
    Ok(())
}

/// A ship turns, thrusts, cools, fires and moves, as the ship of this number.
fn run_ship(
    ship: &mut Ship,
    pad: Pad,
    number: u8,
    bullets: &mut Vec<Bullet>,
) -> Result<(), AllocError>
    requires few { number ≤ 4 }
    requires few_bullets { length bullets.old.items ≤ 32 }
    requires ship_in { IsShip ship.old }
    requires bullets_in { All IsBullet bullets.old.items }
    ensures ship { OnOk result (ship.new ≡ ship_after pad bullets.old.items ship.old) }
    ensures bullets { OnOk result (bullets.new.items ≡ bullets_after pad number ship.old
        bullets.old.items) }
    ensures still_few { length bullets.new.items ≤ 32 }
    ensures ship_still_in { IsShip ship.new }
    ensures bullets_still_in { All IsBullet bullets.new.items }
{
    ship.steer(pad);
    if pad.fire && ship.cool == 0 && bullets.len() < MOST_BULLETS {
        bullets.push(ship.shot(number))?;
        ship.cool = COOL;
    }
    ship.advance();
    Ok(())
}

/// The bullets move.
pub(crate) fn fly_bullets(bullets: &mut Vec<Bullet>)
    requires { All IsBullet bullets.old.items }
    ensures value { bullets.new.items ≡ map flown bullets.old.items }
    ensures in_range { All IsBullet bullets.new.items }
{
    for bullet in bullets.iter_mut() {
        bullet.fly();
    }
}

/// The bullets hit ships, and those vanish that hit one or have no frame to live.
pub(crate) fn land_bullets(ships: &mut Vec<Ship>, bullets: &mut Vec<Bullet>)
    requires ships_in { All IsShip ships.old.items }
    requires few { length ships.old.items ≤ 4 }
    requires bullets_in { All IsBullet bullets.old.items }
    ensures ships { ships.new.items ≡ fold (λ ships bullet. struck bullet 1 ships) ships.old.items
        bullets.old.items }
    ensures bullets { bullets.new.items ≡ filter (remains ships.old.items) bullets.old.items }
    ensures as_many { length ships.new.items ≡ length ships.old.items }
    ensures ships_still_in { All IsShip ships.new.items }
    ensures bullets_still_in { All IsBullet bullets.new.items }
    ensures not_more { length bullets.new.items ≤ length bullets.old.items }
{
    let mut kept = 0;
    for index in 0..bullets.len() {
        let bullet = bullets[index];
        if !strike(ships, &bullet) && bullet.life > 0 {
            bullets[kept] = bullet;
            kept += 1;
        }
    }
    bullets.truncate(kept);
}

/// Counts a hit for the first ship that a bullet hits, and says whether there is one.
fn strike(ships: &mut Vec<Ship>, bullet: &Bullet) -> bool
    requires ships_in { All IsShip ships.old.items }
    requires few { length ships.old.items ≤ 4 }
    requires bullet_in { IsBullet bullet.now }
    ensures value { ships.new.items ≡ struck bullet.now 1 ships.old.items }
    ensures any { result ≡ hits_any bullet.now 1 ships.old.items }
    ensures as_many { length ships.new.items ≡ length ships.old.items }
    ensures ships_still_in { All IsShip ships.new.items }
{
    for index in 0..ships.len() {
        if bullet.hits(index + 1, &ships[index]) {
            ships[index].take_hit();
            return true;
        }
    }
    false
}
