//! The game.
ghost use Rattle.std.specs.Prelude.{◌≡◌};
ghost use Rattle.fazgrond.specs.Counts.{no_calls};
ghost use Rattle.game_fighter.specs.Frame.{opening as opening_state};

use crate::state::State;
use fazgrond::Row;
use fazgrond::game::{Call, Counts, Game, NoMemory, RawGame};
use std::marker::Model;

/// The game. It keeps nothing but its counts, and never refuses a call.
#[derive(Debug, Drop)]
pub struct Fight {
    counts: Counts,
}

/// A clause sees a fight as its counts.
impl Model for Fight {
    ghost use Rattle.fazgrond.specs.GameCounts.{Counts};

    ghost Value = { Counts };

    ghost view = { λ fight. fight.counts };
}

impl Fight {
    /// A game that was not yet asked for anything.
    pub fn new() -> Fight
        ensures { result ≡ no_calls }
    {
        Fight {
            counts: Counts::new(),
        }
    }

    /// The snapshot that a session starts from.
    pub fn opening() -> State
        ensures { result ≡ opening_state }
    {
        State::opening()
    }
}

impl Default for Fight {
    ghost use Rattle.std.specs.Prelude.{◌≡◌};
    ghost use Rattle.fazgrond.specs.Counts.{no_calls};

    ghost is_default = { λ fight. fight ≡ no_calls };

    fn default() -> Self {
        Fight::new()
    }
}

impl RawGame for Fight {
    ghost use Rattle.std.specs.Prelude.{◌≡◌};
    ghost use Rattle.game_fighter.specs.Values.{step, value_of};

    type State = State;

    type Snapshot = State;

    ghost state_value = { value_of };

    ghost snapshot_value = { value_of };

    ghost call_counts = { λ fight. fight };

    ghost ran = { λ value row next. next ≡ step value row };

    // Each call is counted, with whether it was granted; here each is.
    fn load(&mut self, snapshot: &State) -> Result<State, NoMemory> {
        self.counts.note(Call::Load, true);
        Ok(*snapshot)
    }

    fn save(&mut self, state: &State) -> Result<State, NoMemory> {
        self.counts.note(Call::Save, true);
        Ok(*state)
    }

    fn copy(&mut self, snapshot: &State) -> Result<State, NoMemory> {
        self.counts.note(Call::Copy, true);
        Ok(*snapshot)
    }

    fn advance(&mut self, state: &mut State, row: &Row) -> Result<(), NoMemory> {
        self.counts.note(Call::Advance, true);
        *state = state.after(row);
        Ok(())
    }

    fn same(&self, a: &State, b: &State) -> bool {
        a.is_same(b)
    }

    fn counts(&self) -> Counts {
        self.counts
    }
}

impl Game for Fight {
    ghost use Rattle.game_fighter.specs.Values.{step};

    ghost step = { step };

    // `ran` is the step already, so what the law asks for is what it is given, both ways round.
    ghost is_step = { λ value row next. (λ e. e, λ e. e) };
}
