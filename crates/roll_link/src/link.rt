//! The end of a link that takes items.
ghost use Rattle.std.specs.Prelude.{◌≡◌, [], ◌∷◌, ◌++◌, length, None, Some, true, false, IfOk, IfSome, IfNone};
ghost use Rattle.std.specs.Option.{option_to_list};
ghost use Rattle.roll_link.specs.Linked.{but_last, left, Begins};

use crate::remote::Remote;
use crate::run::Run;
use crate::sender::{Finished, LinkSender};
use rtrb::{Consumer, RingBuffer};
use std::alloc::{AllocError, Global};
use std::marker::Model;

/// How many items a ring has places for.
pub const LINK_ROOM: usize = 64;

/// The end that the owner takes items from. An item that it can't use yet it gives back, and gets again as the next one.
#[derive(Drop)]
pub struct Link {
    consumer: Consumer<Remote>,
    /// What was popped, and the owner hasn't taken.
    run: Run,
    /// The last item that the owner took, if it gave it back.
    held: Option<Remote>,
    /// Whether the sender has finished, and all that it sent is known.
    ended: bool,
}

/// A clause sees which link it is, the items that were applied, and those that are known to come.
impl Model for Link {
    ghost use Rattle.std.specs.Prelude.{◌≡◌, ◌++◌};
    ghost use Rattle.rtrb.specs.Ring.{consumer_capacity, known_items, received};
    ghost use Rattle.roll_link.specs.Rings.{ring_at};
    ghost use Rattle.roll_link.specs.Linked.{Linked, but_waiting, held_list};
    ghost use Rattle.roll_link.specs.declared.link.TheConstants.{LINK_ROOM};

    ghost Value = { Linked };

    ghost view = { λ l. record { ring = ring_at l.consumer.end; applied = but_waiting (received l.consumer) (held_list l.held ++ l.run); held = l.held; known = l.run ++ known_items l.consumer; ended = l.ended } };

    ghost invariant = { λ l. (consumer_capacity l.consumer ≡ LINK_ROOM) × (but_waiting (received l.consumer) (held_list l.held ++ l.run) ++ (held_list l.held ++ l.run) ≡ received l.consumer) };
}

impl Link {
    /// Both ends of a link by which nothing was sent.
    ///
    /// # Errors
    ///
    /// If the allocator has no room.
    pub fn open(alloc: Global) -> Result<(LinkSender, Link), AllocError>
        ensures sender { IfOk result (λ ends. ends.0 ≡ record { ring = ends.1.ring; sent = [] }) }
        ensures link { IfOk result
            (λ ends. ends.1
            ≡ record { ring = ends.1.ring; applied = []; held = None; known = []; ended = false }) }
    {
        let (producer, consumer) = RingBuffer::new(alloc, LINK_ROOM)?;
        let link = Link {
            consumer,
            run: Run::new(),
            held: None,
            ended: false,
        };
        Ok((LinkSender::new(producer), link))
    }

    /// The next item: the one that was given back, or else the next in the ring. It counts as applied, unless it is
    /// given back. None if the ring is empty. That what was sent by now is found is proved only of a link that has
    /// ended; else it is tested (`tests/runs/links.t`).
    pub fn next(&mut self) -> Option<Remote>
        ensures same { self.new ≡ record self.old {
          applied = self.old.applied
              ++ option_to_list result;
          held = None;
          known = self.new.known;
        } }
        ensures next { Begins (left self.old) (option_to_list result ++ left self.new) }
        ensures all { self.old.ended ≡ true → option_to_list result ++ left self.new
            ≡ left self.old }
        ensures none { IfNone result (left self.new ≡ []) }
    {
        if let Some(item) = self.held.take() {
            return Some(item);
        }
        if let Some(item) = self.run.next() {
            return Some(item);
        }
        if self.ended {
            if self.consumer.cached_slots() == 0 {
                return None;
            }
            return Some(self.consumer.pop_known());
        }
        self.run.refill(&mut self.consumer);
        self.run.next()
    }

    /// Gives the last item back: it is the next one again.
    pub fn hold(&mut self, item: Remote)
        requires none { self.old.held ≡ None }
        requires last { self.old.applied ≡ but_last self.old.applied ++ item ∷ [] }
        ensures { self.new
            ≡ record self.old { applied = but_last self.old.applied; held = Some item } }
    {
        self.held = Some(item);
    }

    /// The sender has finished: how many of the items that it sent are not applied yet. All of them are known from now on.
    pub fn end(&mut self, finished: Finished) -> u32
        requires { self.old.ring ≡ finished.ring }
        ensures same { self.new ≡ record self.old { known = self.new.known; ended = true } }
        ensures sent { finished.sent ≡ self.new.applied ++ left self.new }
        ensures count { result ≡ length (left self.new) }
    {
        let mut ring = finished.ring;
        let known = self.run.len() + self.consumer.slots_after(&mut ring);
        self.ended = true;
        match self.held {
            Some(_) => known as u32 + 1,
            None => known as u32,
        }
    }
}
