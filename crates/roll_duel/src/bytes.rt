//! Ships and bullets as bytes: numbers are big-endian, signed ones in two's complement.
ghost use Rattle.std.specs.Prelude.{◌≡◌, ◌++◌, flat_map, OnOk};
ghost use Rattle.roll_duel.specs.Bytes.{ship_bytes, bullet_bytes};

use crate::bullet::Bullet;
use crate::ship::Ship;
use std::alloc::AllocError;

/// Adds 16 bytes for each ship.
pub(crate) fn write_ships(bytes: &mut Vec<u8>, ships: &[Ship]) -> Result<(), AllocError>
    ensures { OnOk result (bytes.new.items ≡ bytes.old.items ++ flat_map ship_bytes ships.now) }
{
    for ship in ships {
        write_ship(bytes, ship)?;
    }
    Ok(())
}

/// Adds 14 bytes for each bullet.
pub(crate) fn write_bullets(bytes: &mut Vec<u8>, bullets: &[Bullet]) -> Result<(), AllocError>
    ensures { OnOk result (bytes.new.items ≡ bytes.old.items ++ flat_map bullet_bytes bullets.now) }
{
    for bullet in bullets {
        write_bullet(bytes, bullet)?;
    }
    Ok(())
}

fn write_ship(bytes: &mut Vec<u8>, ship: &Ship) -> Result<(), AllocError>
    ensures { OnOk result (bytes.new.items ≡ bytes.old.items ++ ship_bytes ship.now) }
{
    bytes.extend_from_slice(&ship.x.to_be_bytes())?;
    bytes.extend_from_slice(&ship.y.to_be_bytes())?;
    bytes.extend_from_slice(&ship.vx.to_be_bytes())?;
    bytes.extend_from_slice(&ship.vy.to_be_bytes())?;
    bytes.extend_from_slice(&[ship.heading, ship.cool])?;
    bytes.extend_from_slice(&ship.hits.to_be_bytes())?;
    Ok(())
}

fn write_bullet(bytes: &mut Vec<u8>, bullet: &Bullet) -> Result<(), AllocError>
    ensures { OnOk result (bytes.new.items ≡ bytes.old.items ++ bullet_bytes bullet.now) }
{
    bytes.extend_from_slice(&[bullet.owner, bullet.life])?;
    bytes.extend_from_slice(&bullet.x.to_be_bytes())?;
    bytes.extend_from_slice(&bullet.y.to_be_bytes())?;
    bytes.extend_from_slice(&bullet.vx.to_be_bytes())?;
    bytes.extend_from_slice(&bullet.vy.to_be_bytes())?;
    Ok(())
}
