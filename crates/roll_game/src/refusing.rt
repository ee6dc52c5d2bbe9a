//! A game of which one call is refused.
ghost use Rattle.std.specs.Prelude.{◌≡◌, ◌≢◌, ◌-◌, ◌↔◌, IsTrue, IsErr, IfOk, OnOk, OnErr, is_ok, true, false};
ghost use Rattle.roll_game.specs.Counts.{counted};
ghost use Rattle.roll_game.specs.Refusing.{IsDue, TakesCall, counts_of};

use crate::counts::{Call, Counts};
use crate::game::{Game, NoMemory, RawGame};
use roll_frame::Row;
use std::marker::Model;

/// A game of which one call is refused, and the others are passed on.
///
/// The refused call doesn't reach the game, but `counts` counts it. Each other call is asked of the game once, and
/// brings no further call with it.
#[derive(Debug, Drop)]
pub struct Refusing<R> {
    game: R,
    call: Call,
    due: u64,
    refused: bool,
}

/// A clause sees the game and what is refused of it.
impl<R> Model for Refusing<R> {
    ghost use Rattle.std.specs.Prelude.{◌≡◌, IsTrue};
    ghost use Rattle.roll_game.specs.Refusing.{Wrapped};

    ghost Value = { Wrapped R };

    ghost view = { λ r. record { game = r.game; call = r.call; due = r.due; refused = r.refused } };

    ghost invariant = { λ r. IsTrue r.refused → r.due ≡ 0 };
}

impl<R> Refusing<R> {
    /// Wraps a game, to refuse the `k`th call of a kind, counted from 1, and with 0 none.
    pub fn new(game: R, call: Call, k: u64) -> Refusing<R>
        ensures { result ≡ record { game = game; call = call; due = k; refused = false } }
    {
        Refusing {
            game,
            call,
            due: k,
            refused: false,
        }
    }

    /// The game inside.
    pub fn game(&self) -> &R
        ensures { result.now ≡ self.now.game }
    {
        &self.game
    }

    /// The game inside, without the wrapper.
    pub fn into_game(self) -> R
        ensures { result ≡ self.game }
    {
        self.game
    }

    /// The calls of the chosen kind up to the one that is refused, that one included, and 0 where none will be.
    pub fn due(&self) -> u64
        ensures { result ≡ self.now.due }
    {
        self.due
    }

    /// Counts a call, and refuses it if it is the one.
    fn admit(&mut self, call: Call) -> Result<(), NoMemory>
        ensures due { IsErr result ↔ IsDue self.old call }
        ensures unspent { OnErr result (self.old.refused ≡ false) }
        ensures err { OnErr result (self.new ≡ record self.old { due = 0; refused = true }) }
        ensures counted { OnOk result (
            self.old.call ≡ call → self.new ≡ record self.old { due = self.old.due - 1 }) }
        ensures other { self.old.call ≢ call → self.new ≡ self.old }
    {
        if self.call != call || self.due == 0 {
            return Ok(());
        }
        self.due -= 1;
        if self.due > 0 {
            return Ok(());
        }
        self.refused = true;
        Err(NoMemory)
    }
}

impl<R: RawGame> RawGame for Refusing<R> {
    ghost use Rattle.roll_game.specs.Refusing.{counts_of};

    type State = R::State;

    type Snapshot = R::Snapshot;

    ghost state_value = { R.state_value };

    ghost snapshot_value = { R.snapshot_value };

    ghost call_counts = { counts_of R.call_counts };

    ghost ran = { R.ran };

    fn load(&mut self, snapshot: &R::Snapshot) -> Result<R::State, NoMemory>
        ensures value { IfOk result (λ state. R.state_value state ≡ R.snapshot_value snapshot.now) }
        ensures counts { let counts = counts_of R.call_counts in
            counts self.new ≡ counted Call.Load (is_ok result) (counts self.old) }
        ensures call { TakesCall R.call_counts Call.Load self.old self.new (is_ok result) }
    {
        self.admit(Call::Load)?;
        self.game.load(snapshot)
    }

    fn save(&mut self, state: &R::State) -> Result<R::Snapshot, NoMemory>
        ensures value { IfOk result (λ snapshot. R.snapshot_value snapshot ≡ R.state_value
            state.now) }
        ensures counts { let counts = counts_of R.call_counts in
            counts self.new ≡ counted Call.Save (is_ok result) (counts self.old) }
        ensures call { TakesCall R.call_counts Call.Save self.old self.new (is_ok result) }
    {
        self.admit(Call::Save)?;
        self.game.save(state)
    }

    fn copy(&mut self, snapshot: &R::Snapshot) -> Result<R::Snapshot, NoMemory>
        ensures value { IfOk result (λ copy. R.snapshot_value copy ≡ R.snapshot_value
            snapshot.now) }
        ensures counts { let counts = counts_of R.call_counts in
            counts self.new ≡ counted Call.Copy (is_ok result) (counts self.old) }
        ensures call { TakesCall R.call_counts Call.Copy self.old self.new (is_ok result) }
    {
        self.admit(Call::Copy)?;
        self.game.copy(snapshot)
    }

    fn advance(&mut self, state: &mut R::State, row: &Row) -> Result<(), NoMemory>
        ensures ran { OnOk result (R.ran (R.state_value state.old) row.now
            (R.state_value state.new)) }
        ensures counts { let counts = counts_of R.call_counts in
            counts self.new ≡ counted Call.Advance (is_ok result) (counts self.old) }
        ensures call { TakesCall R.call_counts Call.Advance self.old self.new (is_ok result) }

        // The trait leaves open what a refused advance makes of the state.
        ensures state { IsDue self.old Call.Advance → state.new ≡ state.old }
    {
        self.admit(Call::Advance)?;
        self.game.advance(state, row)
    }

    fn same(&self, a: &R::Snapshot, b: &R::Snapshot) -> bool {
        self.game.same(a, b)
    }

    fn counts(&self) -> Counts {
        let mut counts = self.game.counts();
        if self.refused {
            counts.note(self.call, false);
        }
        counts
    }
}

impl<R: Game> Game for Refusing<R> {
    ghost step = { R.step };

    ghost is_step = { R.is_step };
}
