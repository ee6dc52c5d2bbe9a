//! The traits of a game, with their rules.
ghost use Rattle.std.specs.Prelude.{◌≡◌, ◌↔◌, ℕ, List, IfOk, OnOk, IsTrue, is_ok};
ghost use Rattle.roll_frame.specs.declared.row.Cell.{Cell};
ghost use Rattle.roll_game.specs.Counts.{counted};

use crate::counts::{Call, Counts};
use roll_frame::{Refusal, Row};
use thiserror::Error;

/// A call of a game was refused for want of memory.
#[derive(Clone, Copy, Debug, PartialEq, Eq, Error)]
#[error("out of memory")]
pub struct NoMemory;

impl From<NoMemory> for Refusal {
    ghost use Rattle.std.specs.Prelude.{◌≡◌};
    ghost use Rattle.roll_frame.specs.declared.refusal.Refusal.TheVariants.{NoMemory as OutOfMemory};

    ghost from_gives = { λ _ refusal. refusal ≡ OutOfMemory };

    fn from(_none: NoMemory) -> Refusal {
        Refusal::NoMemory
    }
}

/// A game as a session drives it: saved, loaded, and advanced by one row a frame.
///
/// `load`, `save`, `copy` and `advance` may refuse for want of memory. The game counts each of them, a refused one
/// too, and how often it refused (`Counts`); it counts nothing else. What a state or a snapshot is worth is a
/// list of whole numbers, for proofs alone; two that are worth the same are the same to the session.
pub trait RawGame {
    ghost use Rattle.roll_game.specs.declared.counts.Counts.{Counts};

    /// A state that can be advanced.
    type State: Drop;
    /// A saved state. It is kept, copied and compared, and never changed.
    type Snapshot: Drop;

    /// What a state is worth.
    ghost state_value: { Self.State → List ℕ };

    /// What a snapshot is worth.
    ghost snapshot_value: { Self.Snapshot → List ℕ };

    /// How often each of its calls was asked for, and how often one was refused.
    ghost call_counts: { Self → Counts };

    /// What a successful advance by a row may make of a value.
    ghost ran: { List ℕ → List Cell → List ℕ → Type 0 };

    /// The state that was saved.
    fn load(&mut self, snapshot: &Self::Snapshot) -> Result<Self::State, NoMemory>
        ensures value { IfOk result (λ state. state_value state ≡ snapshot_value snapshot.now) }
        ensures counts { call_counts self.new ≡ counted Call.Load (is_ok result)
            (call_counts self.old) };

    /// Saves a state, which stays as it is.
    fn save(&mut self, state: &Self::State) -> Result<Self::Snapshot, NoMemory>
        ensures value { IfOk result (λ snapshot. snapshot_value snapshot ≡ state_value state.now) }
        ensures counts { call_counts self.new ≡ counted Call.Save (is_ok result)
            (call_counts self.old) };

    /// A second snapshot of the same state.
    fn copy(&mut self, snapshot: &Self::Snapshot) -> Result<Self::Snapshot, NoMemory>
        ensures value { IfOk result (λ copy. snapshot_value copy ≡ snapshot_value snapshot.now) }
        ensures counts { call_counts self.new ≡ counted Call.Copy (is_ok result)
            (call_counts self.old) };

    /// Advances the state by one frame. What a refused call leaves in the state is open.
    fn advance(&mut self, state: &mut Self::State, row: &Row) -> Result<(), NoMemory>
        ensures ran { OnOk result (ran (state_value state.old) row.now (state_value state.new)) }
        ensures counts { call_counts self.new ≡ counted Call.Advance (is_ok result)
            (call_counts self.old) };

    /// Whether two snapshots are worth the same.
    fn same(&self, a: &Self::Snapshot, b: &Self::Snapshot) -> bool
        ensures { IsTrue result ↔ (snapshot_value a.now ≡ snapshot_value b.now) };

    /// How often each of the four calls was asked for, and how often one was refused.
    fn counts(&self) -> Counts
        ensures { result ≡ call_counts self.now };
}

/// A game whose next state follows from the state and the row, so that peers who give it the same rows agree.
pub trait Game: RawGame {
    /// The value after a row.
    ghost step: { List ℕ → List Cell → List ℕ };

    /// A successful advance leads to the step's value, and to no other.
    ghost is_step: { (x : List ℕ) (row : List Cell) (y : List ℕ) → Self.ran x row y ↔ (y ≡ step x row) };
}

/// Why a session or a sync test did not start, with what was handed in.
#[derive(Drop)]
pub struct StartFault<R: RawGame> {
    pub why: Refusal,
    pub game: R,
    pub opening: R::Snapshot,
}
