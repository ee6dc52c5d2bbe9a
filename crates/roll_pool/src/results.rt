//! The owner's end of a worker's ring.
ghost use Rattle.std.specs.Prelude.{◌≡◌};

use roll_branch::Done;
use roll_game::Game;
use rtrb::Consumer;
use std::marker::Model;

/// The results that a worker's ring has places for.
pub const RESULT_PLACES: usize = 16;

/// The results of one worker, in their order.
#[derive(Drop)]
pub(crate) struct Results<G: Game> {
    pub(crate) consumer: Consumer<Done<G>>,
}

/// A clause sees the ring, and what came by it.
impl<G: Game> Model for Results<G> {
    ghost use Rattle.std.specs.Prelude.{◌≡◌};
    ghost use Rattle.rtrb.specs.Ring.{received, consumer_capacity};
    ghost use Rattle.roll_branch.specs.declared.branch.Done.{Done};
    ghost use Rattle.roll_pool.specs.Rings.{Inbox, ring_at};
    ghost use Rattle.roll_pool.specs.declared.results.TheConstants.{RESULT_PLACES};

    ghost Value = { Inbox (Done G G.State G.Snapshot) };

    ghost view = { λ r. record { ring = ring_at r.consumer.end; came = received r.consumer } };

    ghost invariant = { λ r. consumer_capacity r.consumer ≡ RESULT_PLACES };
}

impl<G: Game> Results<G> {
    ghost use Rattle.std.specs.Prelude.{◌≡◌, [], ◌∷◌, ◌++◌, IfSome, IfNone};

    /// The next result, if one is seen.
    pub fn pop(&mut self) -> Option<Done<G>>
        ensures ring { self.new.ring ≡ self.old.ring }
        ensures some { IfSome result
            (λ done. self.new ≡ record self.old { came = self.old.came ++ done ∷ [] }) }
        ensures none { IfNone result (self.new ≡ self.old) }
    {
        match self.consumer.pop() {
            Ok(done) => Some(done),
            Err(_) => None,
        }
    }
}
