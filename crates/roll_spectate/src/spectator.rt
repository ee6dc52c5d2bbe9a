//! A spectator.
ghost use Rattle.std.specs.Prelude.{◌≡◌, ◌⊎◌, [], length, true, false, IfOk, IfErr, OnOk, option_copied, option_map};
ghost use Rattle.roll_game.specs.Counts.{counted};
ghost use Rattle.roll_game.specs.declared.counts.Call.TheVariants.{Load};
ghost use Rattle.roll_spectate.specs.Watched.{IsRefused, IsStepped, shown};

use crate::ring::{FewRows, RowReceiver};
use roll_frame::{Refusal, Row};
use roll_game::Game;
use rtrb::Consumer;
use std::alloc::Global;
use std::marker::Model;
use std::snapshot::Snapshot;

/// A viewer of a session: it runs the settled rows that it is sent, never a predicted one, and never back.
#[derive(Drop)]
pub struct Spectator<G: Game> {
    game: G,
    opening: Snapshot<G::Snapshot>,
    rows: Consumer<Row, Global, FewRows>,
    frame: u32,
    // None once the game refused an advance.
    state: Option<G::State>,
}

impl<G: Game> Model for Spectator<G> {
    ghost use Rattle.std.specs.Prelude.{◌≡◌, length, is_none, IfSome};
    ghost use Rattle.rtrb.specs.Ring.{received};
    ghost use Rattle.roll_frame.specs.Paths.{run};
    ghost use Rattle.roll_spectate.specs.Watched.{Watched};

    ghost Value = { Watched };

    ghost view = { λ s. record { opening = G.snapshot_value s.opening.value; rows = received s.rows; stopped = is_none s.state; counts = G.call_counts s.game } };

    ghost invariant = { λ s. (s.frame ≡ length (received s.rows)) × IfSome s.state (λ state. G.state_value state ≡ run G.step (G.snapshot_value s.opening.value) (received s.rows)) };
}

/// Why a spectator did not start, with what was handed in.
#[derive(Drop)]
pub struct SpectatorFault<G: Game> {
    pub why: Refusal,
    pub game: G,
    pub receiver: RowReceiver,
}

impl<G: Game> Spectator<G> {
    /// A spectator at frame 0, with the opening shown. It takes no memory but what the game takes.
    ///
    /// # Errors
    ///
    /// `NoMemory` if the game refuses to load the opening. Game and receiver are handed back.
    pub fn new(
        game: G,
        opening: &G::Snapshot,
        receiver: RowReceiver,
    ) -> Result<Spectator<G>, SpectatorFault<G>>
        ensures spectator { IfOk result (λ spectator. spectator ≡ record {
          opening = G.snapshot_value opening.now;
          rows = [];
          stopped = false;
          counts = counted
              Load true (G.call_counts game);
        }) }
        ensures refused { IfErr result (λ fault. fault.why ≡ Refusal.NoMemory) }
        ensures game_back { IfErr result
            (λ fault. G.call_counts fault.game ≡ counted Load false (G.call_counts game)) }
        ensures receiver_back { IfErr result (λ fault. fault.receiver ≡ receiver) }
    {
        let mut game = game;
        let Ok(state) = game.load(opening) else {
            let why = Refusal::NoMemory;
            return Err(SpectatorFault {
                why,
                game,
                receiver,
            });
        };
        Ok(Spectator {
            game,
            opening: Snapshot::of(opening),
            rows: receiver.consumer,
            frame: 0,
            state: Some(state),
        })
    }

    /// Runs the next row, and says which frame this reached. That it finds a row that was sent is tested
    /// (`tests/runs/spectators.t`).
    ///
    /// # Errors
    ///
    /// `Stopped` if memory ran out before; `PredictionThreshold` if no row is there; else `NoMemory` if the game
    /// refuses to advance, and the spectator is stopped.
    pub fn step(&mut self) -> Result<u32, Refusal>
        ensures stepped { OnOk result (IsStepped self.old self.new true) }
        ensures frame { IfOk result (λ frame. frame ≡ length self.new.rows) }
        ensures refused { IfErr result (IsRefused self.old self.new) }
    {
        let Some(mut state) = self.state.take() else {
            return Err(Refusal::Stopped);
        };
        let Ok(row) = self.rows.pop() else {
            self.state = Some(state);
            return Err(Refusal::PredictionThreshold);
        };
        self.frame += 1;
        self.game.advance(&mut state, &row)?;
        self.state = Some(state);
        Ok(self.frame)
    }

    /// The state after the rows that were received. None in a spectator that is stopped.
    pub fn state(&self) -> Option<&G::State>
        ensures { option_map G.state_value (option_copied result) ≡ shown G.step self.now }
    {
        self.state.as_ref()
    }

    /// The game, as it was handed in or advanced since.
    pub fn game(&self) -> &G
        ensures { G.call_counts result.now ≡ self.now.counts }
    {
        &self.game
    }
}
