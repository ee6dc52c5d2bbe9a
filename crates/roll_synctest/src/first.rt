//! The first run of rows.
ghost use Rattle.std.specs.Prelude.{◌≡◌, ◌⊎◌, ◌<◌, ℕ, [], ◌∷◌, ◌++◌, length, vec_capacity, IfOk, OnErr, OnOk, true, false};
ghost use Rattle.roll_game.specs.Counts.{IsRefusedAt, counted, rolled};
ghost use Rattle.roll_game.specs.declared.counts.Call.TheVariants.{Advance, Save};
ghost use Rattle.roll_synctest.specs.Runs.{IsRerun, IsTrace, rerun_frames};

use crate::second::{Rerun, run_again};
use arrayvec::ArrayVec;
use roll_frame::{Row, SYNC_TEST_LIMIT};
use roll_game::{NoMemory, RawGame, advance_and_save};
use std::marker::Model;

/// The run that is never loaded: its state, the rows since the last verified frame, and the result of each.
#[derive(Drop)]
pub struct First<R: RawGame> {
    state: R::State,
    rows: ArrayVec<Row, SYNC_TEST_LIMIT>,
    results: Vec<R::Snapshot>,
}

/// A clause sees what the state and the results are worth, and how many results there is room for.
impl<R: RawGame> Model for First<R> {
    ghost use Rattle.std.specs.Prelude.{map, vec_capacity};
    ghost use Rattle.roll_synctest.specs.Runs.{FirstRun};

    ghost Value = { FirstRun };

    ghost view = { λ f. record { state = R.state_value f.state; rows = f.rows.items; results = map R.snapshot_value f.results.items; room = vec_capacity f.results } };
}

impl<R: RawGame> First<R> {
    /// The run from a state, with room for results.
    pub fn new(state: R::State, results: Vec<R::Snapshot>) -> First<R>
        requires { results.items ≡ [] }
        ensures { result ≡ record {
          state = R.state_value state;
          rows = [];
          results = [];
          room = vec_capacity results;
        } }
    {
        First {
            state,
            rows: ArrayVec::new(),
            results,
        }
    }

    /// How many rows were run since the last verified frame.
    pub fn count(&self) -> u32
        ensures { result ≡ length self.now.rows }
    {
        self.rows.len() as u32
    }

    /// Runs a row, and saves its result.
    pub fn run(&mut self, game: &mut R, row: &Row) -> Result<(), NoMemory>
        requires short { length self.old.rows < SYNC_TEST_LIMIT }
        requires room { length self.old.results < self.old.room }
        ensures taken { OnOk result (self.new ≡ record self.old {
          state = self.new.state;
          rows = self.old.rows ++ row.now ∷ [];
          results = self.old.results
              ++ self.new.state ∷ [];
        }) }
        ensures ran { OnOk result (R.ran self.old.state row.now self.new.state) }
        ensures counts { OnOk result (R.call_counts game.new ≡ counted Save true
            (counted Advance true (R.call_counts game.old))) }
        ensures refused { OnErr result
            ((R.call_counts game.new ≡ counted Advance false (R.call_counts game.old))
            ⊎ (R.call_counts game.new ≡ counted Save false
            (counted Advance true (R.call_counts game.old)))) }
    {
        let result = advance_and_save(game, &mut self.state, row)?;
        self.rows.push(*row);
        self.results.push_reserved(result);
        Ok(())
    }

    /// Runs its rows again, from a saved state.
    pub fn run_again(
        &self,
        game: &mut R,
        from: &R::Snapshot,
    ) -> Result<Rerun<R::Snapshot>, NoMemory>
        requires some { 0 < length self.now.rows }
        requires trace { IsTrace R.ran (R.snapshot_value from.now) self.now.rows self.now.results }
        ensures rerun { IfOk result (IsRerun R.ran (R.snapshot_value from.now) self.now.rows
            self.now.results R.snapshot_value) }
        ensures counts { IfOk result (λ rerun. R.call_counts game.new ≡ rolled
            (rerun_frames (length self.now.rows) rerun) (R.call_counts game.old)) }
        ensures refused { OnErr result ((made : ℕ) × (made < length self.now.rows)
            × IsRefusedAt made (R.call_counts game.old) (R.call_counts game.new)) }
    {
        run_again(game, from, self.rows.as_slice(), &self.results)
    }

    /// Goes on from a verified frame.
    pub fn clear(&mut self)
        ensures { self.new ≡ record self.old { rows = []; results = [] } }
    {
        self.rows.clear();
        self.results.clear();
    }
}
