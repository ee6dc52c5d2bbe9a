//! The text of a state.
ghost use Rattle.std.specs.Prelude.{◌≡◌, ◌++◌, OnOk, codes, flat_map};
ghost use Rattle.roll_duel.specs.Bytes.{bytes_of};
ghost use Rattle.roll_duel.specs.Text.{duel_text, ship_text};

use crate::duel::Duel;
use crate::ship::Ship;
use crate::state::State;
use roll_game::{NoMemory, Shown};
use roll_text::{push_list, push_number, push_signed};
use std::alloc::AllocError;

impl Shown for Duel {
    ghost text_of = { duel_text };

    fn text(&self, state: &State, out: &mut Vec<u8>) -> Result<(), NoMemory> {
        push_duel(out, state).map_err(|_| NoMemory)
    }
}

/// Writes a duel's ships, and its number of bullets.
fn push_duel(out: &mut Vec<u8>, state: &State) -> Result<(), AllocError>
    ensures { OnOk result (out.new.items ≡ out.old.items ++ duel_text (bytes_of state.now)) }
{
    push_ships(out, state.ships())?;
    out.push(b'b')?;
    push_number(out, state.bullets().len() as u32)
}

/// Writes ships, with a space after each.
fn push_ships(out: &mut Vec<u8>, ships: &[Ship]) -> Result<(), AllocError>
    ensures { OnOk result (out.new.items ≡ out.old.items ++ flat_map (λ ship. ship_text ship
        ++ codes " ") ships.now) }
{
    for ship in ships {
        push_ship(out, ship)?;
        out.push(b' ')?;
    }
    Ok(())
}

fn push_ship(out: &mut Vec<u8>, ship: &Ship) -> Result<(), AllocError>
    ensures { OnOk result (out.new.items ≡ out.old.items ++ ship_text ship.now) }
{
    push_list(out, &[ship.x, ship.y])?;
    out.push(b',')?;
    push_signed(out, i32::from(ship.vx))?;
    out.push(b',')?;
    push_signed(out, i32::from(ship.vy))?;
    out.push(b',')?;
    push_list(
        out,
        &[
            u32::from(ship.heading),
            u32::from(ship.cool),
            u32::from(ship.hits),
        ],
    )
}
