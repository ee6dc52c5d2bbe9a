//! A small game that needs no memory.
ghost use Rattle.std.specs.Prelude.{◌≡◌, ◌≤◌, ◌*◌, ◌^◌, ◌∷◌, []};
ghost use Rattle.roll_game.specs.Counts.{no_calls};
ghost use Rattle.roll_game.specs.Tally.{share, tally_step};

use crate::counts::{Call, Counts};
use crate::game::{Game, NoMemory, RawGame};
use roll_frame::{Cell, PLAYER_LIMIT, Row};
use std::marker::Model;

/// A game that adds words up.
///
/// Its state is a sum. A row makes it ten times the sum, plus for each player the player's number times the
/// word, or 5 for a player who is gone, modulo a million. It never refuses.
#[derive(Debug, Drop)]
pub struct Tally {
    counts: Counts,
}

/// A clause sees a tally as its counts.
impl Model for Tally {
    ghost use Rattle.roll_game.specs.declared.counts.Counts.{Counts};

    ghost Value = { Counts };

    ghost view = { λ t. t.counts };
}

impl Tally {
    /// A tally that was not yet asked for anything.
    pub fn new() -> Tally
        ensures { result ≡ no_calls }
    {
        Tally {
            counts: Counts::new(),
        }
    }

    /// The snapshot that a session starts from.
    pub fn opening() -> u32
        ensures { result ≡ 0 }
    {
        0
    }
}

impl Default for Tally {
    ghost use Rattle.std.specs.Prelude.{◌≡◌};
    ghost use Rattle.roll_game.specs.Counts.{no_calls};

    ghost is_default = { λ t. t ≡ no_calls };

    fn default() -> Self {
        Tally::new()
    }
}

impl RawGame for Tally {
    ghost use Rattle.std.specs.Prelude.{◌≡◌, ◌∷◌, []};
    ghost use Rattle.roll_game.specs.Tally.{tally_step};

    type State = u32;

    type Snapshot = u32;

    ghost state_value = { λ s. s ∷ [] };

    ghost snapshot_value = { λ s. s ∷ [] };

    ghost call_counts = { λ t. t };

    ghost ran = { λ x row y. y ≡ tally_step x row };

    fn load(&mut self, snapshot: &u32) -> Result<u32, NoMemory> {
        self.counts.note(Call::Load, true);
        Ok(*snapshot)
    }

    fn save(&mut self, state: &u32) -> Result<u32, NoMemory> {
        self.counts.note(Call::Save, true);
        Ok(*state)
    }

    fn copy(&mut self, snapshot: &u32) -> Result<u32, NoMemory> {
        self.counts.note(Call::Copy, true);
        Ok(*snapshot)
    }

    fn advance(&mut self, state: &mut u32, row: &Row) -> Result<(), NoMemory> {
        self.counts.note(Call::Advance, true);
        *state = stepped(*state, row);
        Ok(())
    }

    fn same(&self, a: &u32, b: &u32) -> bool {
        a == b
    }

    fn counts(&self) -> Counts {
        self.counts
    }
}

impl Game for Tally {
    ghost use Rattle.roll_game.specs.Tally.{tally_step};

    ghost step = { tally_step };

    ghost is_step = { λ x row y. (λ e. e, λ e. e) };
}

/// The sum after a row.
fn stepped(sum: u32, row: &Row) -> u32
    ensures { result ∷ [] ≡ tally_step (sum ∷ []) row.now }
{
    let mut total = 10 * u64::from(sum);
    for (index, cell) in row.cells().iter().enumerate() {
        total += added(index + 1, *cell);
    }
    (total % 1_000_000) as u32
}

/// What a player's cell adds to the sum.
fn added(player: usize, cell: Cell) -> u64
    requires { player ≤ PLAYER_LIMIT }
    ensures value { result ≡ share player cell }
    ensures small { result ≤ PLAYER_LIMIT * 2 ^ 32 }
{
    match cell {
        Cell::Word(word) => player as u64 * u64::from(word),
        Cell::Gone => 5,
    }
}
