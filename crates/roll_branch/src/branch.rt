//! What was run.
ghost use Rattle.std.specs.Prelude.{◌≡◌, ◌≤◌, length, take};
ghost use Rattle.roll_frame.specs.Paths.{run};
ghost use Rattle.roll_branch.specs.Routed.{AreStates};

use crate::packed::PackedRoute;
use roll_frame::Route;
use roll_game::Game;
use std::marker::Model;

/// Rows that were run from a saved state, with the state after each. A job becomes one by `extend`, or by its states.
#[derive(Drop)]
pub struct Branch<G: Game> {
    pub(crate) ticket: u64,
    pub(crate) route: PackedRoute,
    pub(crate) from: G::Snapshot,
    pub(crate) states: Vec<G::Snapshot>,
}

/// A clause sees where it ran, and what its first state is worth. The other states follow from these.
impl<G: Game> Model for Branch<G> {
    ghost use Rattle.roll_branch.specs.Routed.{Routed, AreStates};

    ghost Value = { Routed };

    ghost view = { λ b. record { ticket = b.ticket; route = b.route; from = G.snapshot_value b.from } };

    ghost invariant = { λ b. AreStates G.snapshot_value G.step (G.snapshot_value b.from) b.route.rows.items b.states.items };
}

/// How the run of a job ended.
#[derive(Drop)]
pub enum Done<G: Game> {
    /// The job's branch.
    Grown(Branch<G>),
    /// The game refused. The job's ticket.
    Refused(u64),
}

/// What a branch is taken apart into.
#[derive(Drop)]
pub struct Parts<G: Game> {
    pub ticket: u64,
    pub route: PackedRoute,
    /// The state after each row.
    pub states: Vec<G::Snapshot>,
}

impl<G: Game> Branch<G> {
    /// The number of its job.
    pub fn ticket(&self) -> u64
        ensures { result ≡ self.now.ticket }
    {
        self.ticket
    }

    /// Where it ran.
    pub fn route(&self) -> Route
        ensures { result ≡ self.now.route }
    {
        self.route.get()
    }

    /// The state after so many rows; after none the one that it started from.
    pub fn state(&self, count: usize) -> &G::Snapshot
        requires { count ≤ length self.now.route.rows.items }
        ensures { G.snapshot_value result.now ≡ run G.step self.now.from
            (take count self.now.route.rows.items) }
    {
        if count == 0 {
            return &self.from;
        }
        &self.states[count - 1]
    }

    /// Takes the branch apart.
    pub fn into_parts(self) -> Parts<G>
        ensures ticket { result.ticket ≡ self.ticket }
        ensures route { result.route ≡ self.route }
        ensures states { AreStates G.snapshot_value G.step self.from self.route.rows.items
            result.states.items }
    {
        Parts {
            ticket: self.ticket,
            route: self.route,
            states: self.states,
        }
    }
}
