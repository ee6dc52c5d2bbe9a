//! Games whose states can be printed.
ghost use Rattle.std.specs.Prelude.{◌≡◌, ℕ, List, ◌++◌, OnOk};
ghost use Rattle.roll_game.specs.Shown.{tally_text};

use crate::game::{Game, NoMemory};
use crate::tally::Tally;
use roll_text::push_number;

/// A game with a text for each state.
pub trait Shown: Game {
    /// The text of a state's value.
    ghost text_of: { List ℕ → List ℕ };

    /// Writes the text of a state at the end.
    fn text(&self, state: &Self::State, out: &mut Vec<u8>) -> Result<(), NoMemory>
        ensures { OnOk result (out.new.items ≡ out.old.items
            ++ text_of (Self.state_value state.now)) };
}

impl Shown for Tally {
    ghost text_of = { tally_text };

    fn text(&self, state: &u32, out: &mut Vec<u8>) -> Result<(), NoMemory> {
        push_number(out, *state).map_err(|_| NoMemory)
    }
}
