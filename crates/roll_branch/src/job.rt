//! What is to be run.
ghost use Rattle.std.specs.Prelude.{◌≡◌, ◌↔◌, ◌≤◌, [], length, vec_capacity, IsNone, IfSome};
ghost use Rattle.roll_branch.specs.Routed.{AreStates};

use crate::branch::Branch;
use crate::packed::PackedRoute;
use roll_frame::Route;
use roll_game::Game;
use std::marker::Model;

/// Rows that are to be run from a saved state, one at least.
///
/// Its route is packed, and moves through job and branch into a log's entry. So a job is small to hand between threads.
#[derive(Drop)]
pub struct Job<G: Game> {
    pub(crate) ticket: u64,
    pub(crate) route: PackedRoute,
    pub(crate) from: G::Snapshot,
    // Empty, with room for a state for each row.
    pub(crate) room: Vec<G::Snapshot>,
}

/// A clause sees where it is to run, and what the state is worth.
impl<G: Game> Model for Job<G> {
    ghost use Rattle.std.specs.Prelude.{◌≡◌, ◌<◌, ◌≤◌, [], length, vec_capacity};
    ghost use Rattle.roll_branch.specs.Routed.{Routed};

    ghost Value = { Routed };

    ghost view = { λ j. record { ticket = j.ticket; route = j.route; from = G.snapshot_value j.from } };

    ghost invariant = { λ j. (0 < length j.route.rows.items) × (j.room.items ≡ []) × (length j.route.rows.items ≤ vec_capacity j.room) };
}

impl<G: Game> Job<G> {
    /// The job of a route's rows, with ticket 0. There is none where there are no rows. It takes no memory: it is handed
    /// an empty list with room for a state for each row.
    pub fn new(route: PackedRoute, from: G::Snapshot, room: Vec<G::Snapshot>) -> Option<Job<G>>
        requires empty { room.items ≡ [] }
        requires room { length route.rows.items ≤ vec_capacity room }
        ensures none { IsNone result ↔ (route.rows.items ≡ []) }
        ensures job { IfSome result (λ job. job ≡ record {
          ticket = 0;
          route = route;
          from = G.snapshot_value from;
        }) }
    {
        if route.count() == 0 {
            return None;
        }
        Some(Job {
            ticket: 0,
            route,
            from,
            room,
        })
    }

    /// The job's number, 0 until it was given one.
    pub fn ticket(&self) -> u64
        ensures { result ≡ self.now.ticket }
    {
        self.ticket
    }

    /// Numbers the job.
    pub fn set_ticket(&mut self, ticket: u64)
        ensures { self.new ≡ record self.old { ticket = ticket } }
    {
        self.ticket = ticket;
    }

    /// Where it is to run.
    pub fn route(&self) -> Route
        ensures { result ≡ self.now.route }
    {
        self.route.get()
    }

    /// The saved state that it is to run from.
    pub fn start(&self) -> &G::Snapshot
        ensures { G.snapshot_value result.now ≡ self.now.from }
    {
        &self.from
    }

    /// The job's branch, for whoever runs its rows otherwise than by `extend`: these are the states after each.
    pub fn grown(self, states: Vec<G::Snapshot>) -> Branch<G>
        requires { AreStates G.snapshot_value G.step self.from self.route.rows.items states.items }
        ensures { result ≡ self }
    {
        Branch {
            ticket: self.ticket,
            route: self.route,
            from: self.from,
            states,
        }
    }
}
