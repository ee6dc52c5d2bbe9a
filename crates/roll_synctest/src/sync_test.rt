//! The sync test.
ghost use Rattle.std.specs.Prelude.{◌≡◌, ◌⊎◌, [], IfOk, IfErr, OnOk, OnErr, IsSome, None, Some, unwrap_or, true, false};
ghost use Rattle.roll_frame.specs.Games.{Value};
ghost use Rattle.roll_game.specs.Counts.{counted};
ghost use Rattle.roll_game.specs.declared.counts.Call.TheVariants.{Load};
ghost use Rattle.roll_synctest.specs.Tests.{IsCut, Says, start_refusal, step_refusal};

use crate::first::First;
use crate::second::Rerun;
use crate::verdict::Verdict;
use roll_frame::{FRAME_LIMIT, Refusal, Row, SYNC_TEST_LIMIT};
use roll_game::{RawGame, StartFault};
use std::alloc::Global;
use std::marker::Model;

/// Runs each row twice on a game, and compares the results.
///
/// The first run goes on from row to row and is never loaded. Once so many rows were run, the second run loads what it
/// saved last and runs them, and each frame's two results are compared.
#[derive(Drop)]
pub struct SyncTest<R: RawGame> {
    game: R,
    frames: u32,
    verified: u32,
    // The last verified frame, as the second run saved it.
    second: R::Snapshot,
    // None once the test is stopped.
    first: Option<First<R>>,
}

impl<R: RawGame> Model for SyncTest<R> {
    ghost use Rattle.roll_synctest.specs.Tests.{Tested, IsTest, tested};

    ghost Value = { Tested };

    ghost view = { λ t. tested t.frames t.verified (R.snapshot_value t.second) t.first (R.call_counts t.game) };

    ghost invariant = { λ t. IsTest R.ran t.frames t.verified (R.snapshot_value t.second) t.first };
}

impl<R: RawGame> SyncTest<R> {
    /// A test that verifies so many frames at once, from an opening on. A refusal hands game and opening back.
    ///
    /// # Errors
    ///
    /// `InvalidRequest` where `frames` is not 1 to 8, else `NoMemory` where the allocator has no room for as many
    /// snapshots, or the game refuses to load the opening. `step` takes no memory but what the game takes.
    pub fn new(
        alloc: Global,
        game: R,
        opening: R::Snapshot,
        frames: u32,
    ) -> Result<SyncTest<R>, StartFault<R>>
        ensures accepted { OnOk result (start_refusal frames ≡ None) }
        ensures test { IfOk result (λ test. test ≡ record {
          frames = frames;
          verified = 0;
          second = R.snapshot_value opening;
          rows = [];
          first =
              Some (R.snapshot_value opening);
          counts = counted Load true (R.call_counts game);
        }) }
        ensures refused { IfErr result (λ fault. fault.why ≡ unwrap_or (start_refusal frames)
            Refusal.NoMemory) }
        ensures opening_back { IfErr result (λ fault. fault.opening ≡ opening) }
        ensures game_back { IfErr result (λ fault. (fault.game ≡ game)
            ⊎ ((start_refusal frames ≡ None)
            × (R.call_counts fault.game ≡ counted Load false (R.call_counts game)))) }
    {
        let mut game = game;
        if frames < 1 || frames > SYNC_TEST_LIMIT as u32 {
            let why = Refusal::InvalidRequest;
            return Err(StartFault { why, game, opening });
        }
        let why = Refusal::NoMemory;
        let Ok(results) = Vec::with_capacity(alloc, frames as usize) else {
            return Err(StartFault { why, game, opening });
        };
        let Ok(state) = game.load(&opening) else {
            return Err(StartFault { why, game, opening });
        };
        Ok(SyncTest {
            game,
            frames,
            verified: 0,
            second: opening,
            first: Some(First::new(state, results)),
        })
    }

    /// Runs a row, and with the last one that makes the frames whole all of them again.
    ///
    /// # Errors
    ///
    /// `Stopped` after a mismatch, and where memory ran out before; `FrameLimit` where 1,048,576 rows were taken, each
    /// counted once; else `NoMemory` where the game refuses a call, and the test is stopped.
    pub fn step(&mut self, row: &Row) -> Result<Verdict, Refusal>
        ensures verdict { IfOk result (Says R.ran self.old self.new row.now) }
        ensures ran { OnOk result ((x y : Value) → self.old.first ≡ Some x → self.new.first ≡ Some y
            → R.ran x row.now y) }
        ensures accepted { OnOk result (step_refusal self.old ≡ None) }
        ensures refused { IfErr result
            (λ why. why ≡ unwrap_or (step_refusal self.old) Refusal.NoMemory) }
        ensures unchanged { IsSome (step_refusal self.old) → self.new ≡ self.old }
        ensures cut { OnErr result (step_refusal self.old ≡ None → IsCut self.old self.new) }
    {
        let Some(mut first) = self.first.take() else {
            return Err(Refusal::Stopped);
        };
        if self.verified + first.count() >= FRAME_LIMIT {
            self.first = Some(first);
            return Err(Refusal::FrameLimit);
        }
        first.run(&mut self.game, row)?;
        if first.count() < self.frames {
            self.first = Some(first);
            return Ok(Verdict::Run);
        }
        match first.run_again(&mut self.game, &self.second)? {
            Rerun::Agrees(last) => {
                first.clear();
                self.first = Some(first);
                self.second = last;
                self.verified += self.frames;
                Ok(Verdict::Verified(self.verified))
            }
            Rerun::Differs(place) => Ok(Verdict::Mismatch(self.verified + place as u32)),
        }
    }

    /// The game, as it was handed in or advanced since.
    pub fn game(&self) -> &R
        ensures { R.call_counts result.now ≡ self.now.counts }
    {
        &self.game
    }
}
