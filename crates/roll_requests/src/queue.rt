//! Requests that wait to be handed out.
ghost use Rattle.std.specs.Prelude.{◌≡◌, ◌==◌, ◌≤◌, ◌<◌, ◌+◌, ◌++◌, ◌∷◌, [], drop, length, min, take, IfOk, OnErr, OnOk};

use crate::limits::ROOM;
use crate::request::Request;
use std::alloc::{AllocError, Global};
use std::marker::Model;

/// Requests in order, of which so many were handed out.
#[derive(Drop)]
pub struct Queue {
    list: Vec<Request>,
    given: usize,
}

impl Model for Queue {
    ghost use Rattle.std.specs.Prelude.{◌≤◌, ◌-◌, drop, length, vec_capacity};
    ghost use Rattle.roll_requests.specs.Requests.{Queued};
    ghost use Rattle.roll_requests.specs.declared.limits.TheConstants.{ROOM};

    ghost Value = { Queued };

    ghost view = { λ q. record { requests = drop q.given q.list.items; room = vec_capacity q.list - length q.list.items } };

    ghost invariant = { λ q. (q.given ≤ length q.list.items) × (ROOM ≤ vec_capacity q.list) };
}

impl Queue {
    /// None, with room for those of any roll.
    pub fn new(alloc: Global) -> Result<Queue, AllocError>
        ensures { IfOk result (λ queue. queue.requests ≡ []) }
    {
        Ok(Queue {
            list: Vec::with_capacity(alloc, ROOM)?,
            given: 0,
        })
    }

    /// Makes room for so many more. Where none waits, it is there for those of a roll.
    pub fn reserve(&mut self, count: usize) -> Result<(), AllocError>
        ensures room { OnOk result (count ≤ self.new.room) }
        ensures short { OnErr result (self.old.requests ≡ [] → ROOM < count) }
        ensures same { self.new.requests ≡ self.old.requests }
    {
        self.forget_given();
        self.list.reserve(count)
    }

    /// Adds one, for which there is room.
    pub fn push(&mut self, request: Request)
        requires { 1 ≤ self.old.room }
        ensures added { self.new.requests ≡ self.old.requests ++ request ∷ [] }
        ensures room { self.old.room ≤ self.new.room + 1 }
    {
        self.list.push_reserved(request);
    }

    /// Those that weren't handed out.
    pub fn requests(&self) -> &[Request]
        ensures { result.now ≡ self.now.requests }
    {
        &self.list[self.given..]
    }

    /// Hands out so many, or all if there are fewer.
    pub fn hand_out(&mut self, count: usize)
        ensures { self.new.requests ≡ drop count self.old.requests }
    {
        self.given += count.min(self.list.len() - self.given);
    }

    /// Drops what was handed out, once all was.
    fn forget_given(&mut self)
        ensures same { self.new.requests ≡ self.old.requests }
        ensures room { self.new.requests ≡ [] → ROOM ≤ self.new.room }
    {
        if self.given == self.list.len() {
            self.list.clear();
            self.given = 0;
        }
    }

    /// Whether all were handed out.
    pub fn is_done(&self) -> bool
        ensures { result ≡ (length self.now.requests == 0) }
    {
        self.given == self.list.len()
    }
}
