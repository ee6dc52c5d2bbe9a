//! The rings of all spectators.
ghost use Rattle.std.specs.Prelude.{◌≡◌, ◌+◌, ◌<◌, [], ◌∷◌, ◌++◌, length, sum_by, All, IfOk, IfErr, OnOk, OnErr, nat_le, if◌then◌else◌};
ghost use Rattle.std.specs.List.{AllZip};
ghost use Rattle.roll_session.specs.Standing.{settled_rows};
ghost use Rattle.roll_spectate.specs.Sent.{IsFed};
ghost use Rattle.roll_spectate.specs.declared.limits.TheConstants.{SPECTATOR_LIMIT as MOST};

use crate::limits::SPECTATOR_LIMIT;
use crate::ring::{RowReceiver, RowSender, open_ring};
use roll_frame::Refusal;
use roll_session::Settling;
use std::alloc::Global;
use std::marker::Model;

/// What a session's spectators are sent: its settled rows, to each as far as its ring has places for them.
///
/// A spectator who is gone takes nothing from the others: its ring stays full.
#[derive(Drop)]
pub struct Feed {
    senders: Vec<RowSender>,
    alloc: Global,
}

/// A clause sees each spectator's ring, what it was sent, and how many rows it is known to have taken, in the order in which they
/// came.
impl Model for Feed {
    ghost use Rattle.std.specs.Prelude.{◌≤◌, List, length, vec_capacity};
    ghost use Rattle.roll_spectate.specs.Sent.{Fed};
    ghost use Rattle.roll_spectate.specs.declared.limits.TheConstants.{SPECTATOR_LIMIT};

    ghost Value = { List Fed };

    ghost view = { λ f. f.senders.items };

    ghost invariant = { λ f. (SPECTATOR_LIMIT ≤ vec_capacity f.senders) × (length f.senders.items ≤ SPECTATOR_LIMIT) };
}

impl Feed {
    /// A feed with no spectator, and room for 32.
    ///
    /// # Errors
    ///
    /// `NoMemory` if the allocator has no room.
    pub fn new(alloc: Global) -> Result<Feed, Refusal>
        ensures feed { IfOk result (λ feed. feed ≡ []) }
        ensures refused { IfErr result (λ why. why ≡ Refusal.NoMemory) }
    {
        let senders = Vec::with_capacity(alloc, SPECTATOR_LIMIT)?;
        Ok(Feed { senders, alloc })
    }

    /// One spectator more, who is sent the rows from frame 0 on: its end of the ring.
    ///
    /// # Errors
    ///
    /// `TooManySpectators` if 32 were added, those who are gone too; else `NoMemory` if the allocator has no room.
    pub fn add(&mut self) -> Result<RowReceiver, Refusal>
        ensures added { IfOk result (λ receiver. self.new ≡ self.old ++ record {
          ring = receiver;
          rows = [];
          taken = 0;
        } ∷ []) }
        ensures place { OnOk result (length self.old < MOST) }
        ensures refused { IfErr result
            (λ why. why ≡ (if nat_le MOST
            (length self.old) then Refusal.TooManySpectators else Refusal.NoMemory)) }
        ensures unchanged { OnErr result (self.new ≡ self.old) }
    {
        if self.senders.len() >= SPECTATOR_LIMIT {
            return Err(Refusal::TooManySpectators);
        }
        let (sender, receiver) = open_ring(self.alloc)?;
        self.senders.push_reserved(sender);
        Ok(receiver)
    }

    /// Sends each spectator its next settled rows, until its ring is full, and says how many it sent in all. It takes
    /// no memory and waits for nobody. The session is to be the one whose rows were sent before. That it finds the
    /// places that became free in a ring is tested, and not proved (`tests/runs/spectators.t`).
    pub fn push<S: Settling>(&mut self, session: &S) -> u32
        ensures pushed { AllZip (IsFed (settled_rows (S.seen session.now).core)) self.old self.new }
        ensures count { sum_by (λ spectator. length spectator.rows) self.new
            ≡ sum_by (λ spectator. length spectator.rows) self.old + result }
    {
        let mut count = 0;
        for sender in self.senders.iter_mut() {
            count += sender.push(session);
        }
        count
    }
}
