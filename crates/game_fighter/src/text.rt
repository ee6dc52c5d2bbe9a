//! The text of a state, which playing a script prints.
ghost use Rattle.std.specs.Prelude.{◌≡◌, ◌++◌, OnOk};
ghost use Rattle.game_fighter.specs.Text.{fighter_text, readiness_text, state_text};

use crate::fight::Fight;
use crate::fighter::Fighter;
use crate::state::State;
use fazgrond::game::{NoMemory, Shown};
use fazgrond::text::push_number;
use std::alloc::AllocError;

impl Shown for Fight {
    ghost use Rattle.game_fighter.specs.Text.{value_text};

    ghost text_of = { value_text };

    fn text(&self, state: &State, out: &mut Vec<u8>) -> Result<(), NoMemory> {
        push_state(out, state).map_err(|_| NoMemory)
    }
}

fn push_state(out: &mut Vec<u8>, state: &State) -> Result<(), AllocError>
    ensures { OnOk result (out.new.items ≡ out.old.items ++ state_text state.now) }
{
    out.extend_from_slice(b"p1 ")?;
    push_fighter(out, &state.one)?;
    out.extend_from_slice(b" | p2 ")?;
    push_fighter(out, &state.two)
}

fn push_fighter(out: &mut Vec<u8>, fighter: &Fighter) -> Result<(), AllocError>
    ensures { OnOk result (out.new.items ≡ out.old.items ++ fighter_text fighter.now) }
{
    push_number(out, u32::from(fighter.place))?;
    out.extend_from_slice(b" hp ")?;
    push_number(out, u32::from(fighter.health))?;
    push_readiness(out, fighter)
}

fn push_readiness(out: &mut Vec<u8>, fighter: &Fighter) -> Result<(), AllocError>
    ensures { OnOk result (out.new.items ≡ out.old.items ++ readiness_text fighter.now) }
{
    out.extend_from_slice(b" cool ")?;
    push_number(out, u32::from(fighter.cool))
}
