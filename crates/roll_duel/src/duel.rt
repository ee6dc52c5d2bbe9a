//! The game.
ghost use Rattle.std.specs.Prelude.{◌≡◌, ◌≤◌, ◌↔◌, IfOk, IsOk, IfErr};
ghost use Rattle.roll_game.specs.Counts.{no_calls};
ghost use Rattle.roll_duel.specs.Frame.{opening_of};

use crate::state::{Snapshot, State};
use roll_frame::{Refusal, Row};
use roll_game::{Call, Counts, Game, NoMemory, RawGame};
use std::alloc::Global;

/// The game, with the memory that its states and snapshots lie in.
#[derive(Drop)]
pub struct Duel {
    alloc: Global,
    ships: u8,
    counts: Counts,
    ghost two_or_more: { 2 ≤ ships },
    ghost four_at_most: { ships ≤ 4 },
}

impl Duel {
    ghost use Rattle.roll_duel.specs.Duels.{ship_count, call_counts, field_in};

    /// A game of two to four ships.
    pub fn new(alloc: Global, ships: u8) -> Result<Duel, Refusal>
        ensures ships { IfOk result (λ duel. ship_count duel ≡ ships) }
        ensures counts { IfOk result (λ duel. call_counts duel ≡ no_calls) }
        ensures granted { IsOk result ↔ ((2 ≤ ships) × (ships ≤ 4)) }
        ensures refusal { IfErr result (λ refusal. refusal ≡ Refusal.PlayerOutOfRange) }
    {
        if !(2..=4).contains(&ships) {
            return Err(Refusal::PlayerOutOfRange);
        }
        Ok(Duel {
            alloc,
            ships,
            counts: Counts::new(),
        })
    }

    /// The opening. It takes `&self`, so no count changes, also where it is refused for want of memory.
    pub fn opening(&self) -> Result<Snapshot, NoMemory>
        ensures { IfOk result (λ snapshot. field_in snapshot ≡ opening_of (ship_count self.now)) }
    {
        match State::opening(self.alloc, self.ships) {
            Ok(state) => Ok(Snapshot { state }),
            Err(_) => Err(NoMemory),
        }
    }
}

impl RawGame for Duel {
    ghost use Rattle.std.specs.Prelude.{◌≡◌};
    ghost use Rattle.roll_duel.specs.Bytes.{bytes_of, step};
    ghost use Rattle.roll_duel.specs.Duels.{call_counts as duel_counts, snapshot_bytes};

    type State = State;

    type Snapshot = Snapshot;

    ghost state_value = { bytes_of };

    ghost snapshot_value = { snapshot_bytes };

    ghost call_counts = { duel_counts };

    ghost ran = { λ value row next. next ≡ step value row };

    fn load(&mut self, snapshot: &Snapshot) -> Result<State, NoMemory> {
        let state = snapshot.state.copy(self.alloc);
        self.counts.note_outcome(Call::Load, state)
    }

    fn save(&mut self, state: &State) -> Result<Snapshot, NoMemory> {
        let copy = state.copy(self.alloc);
        let state = self.counts.note_outcome(Call::Save, copy)?;
        Ok(Snapshot { state })
    }

    fn copy(&mut self, snapshot: &Snapshot) -> Result<Snapshot, NoMemory> {
        let copy = snapshot.state.copy(self.alloc);
        let state = self.counts.note_outcome(Call::Copy, copy)?;
        Ok(Snapshot { state })
    }

    fn advance(&mut self, state: &mut State, row: &Row) -> Result<(), NoMemory> {
        let advanced = state.advance(row);
        self.counts.note_outcome(Call::Advance, advanced)
    }

    fn same(&self, a: &Snapshot, b: &Snapshot) -> bool {
        a.state.is_same(&b.state)
    }

    fn counts(&self) -> Counts {
        self.counts
    }
}

impl Game for Duel {
    ghost use Rattle.roll_duel.specs.Bytes.{step};

    ghost step = { step };

    ghost is_step = { λ value row next. (λ e. e, λ e. e) };
}
