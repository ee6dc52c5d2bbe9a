//! Items that are popped at once.
ghost use Rattle.std.specs.Prelude.{◌≡◌, ◌≤◌, ◌++◌, [], ◌∷◌, length, IfNone, IfSome};
ghost use mathlib.Core.List.{IsPrefix};
ghost use Rattle.rtrb.specs.Ring.{known_items, received, SameConsumer};

use crate::link::LINK_ROOM;
use crate::remote::Remote;
use rtrb::Consumer;
use std::marker::Model;

/// The items of a ring that were popped at once, and aren't handed out.
#[derive(Drop)]
pub(crate) struct Run {
    items: [Remote; LINK_ROOM],
    next: usize,
    end: usize,
}

/// A clause sees those items.
impl Model for Run {
    ghost use Rattle.std.specs.Prelude.{◌≡◌, ◌-◌, ◌≤◌, List, drop, take, length};
    ghost use Rattle.roll_link.specs.declared.remote.Remote.{Remote};
    ghost use Rattle.roll_link.specs.declared.link.TheConstants.{LINK_ROOM};

    ghost Value = { List Remote };

    ghost view = { λ r. take (r.end - r.next) (drop r.next r.items) };

    ghost invariant = { λ r. (r.next ≤ r.end) × (r.end ≤ LINK_ROOM) × (length r.items ≡ LINK_ROOM) };
}

impl Run {
    /// No items.
    pub fn new() -> Run
        ensures { result ≡ [] }
    {
        let none = Remote {
            player: 0,
            frame: 0,
            word: 0,
        };
        Run {
            items: [none; LINK_ROOM],
            next: 0,
            end: 0,
        }
    }

    /// The next item.
    pub fn next(&mut self) -> Option<Remote>
        ensures some { IfSome result (λ item. self.old ≡ item ∷ self.new) }
        ensures none { IfNone result ((self.old ≡ []) × (self.new ≡ [])) }
    {
        if self.next == self.end {
            return None;
        }
        let item = self.items[self.next];
        self.next += 1;
        Some(item)
    }

    /// Pops what is in the ring, with one look at its other end.
    pub fn refill(&mut self, ring: &mut Consumer<Remote>)
        requires { self.old ≡ [] }
        ensures ring { SameConsumer ring.old ring.new }
        ensures popped { received ring.new ≡ received ring.old ++ self.new }
        ensures known { IsPrefix (known_items ring.old) (self.new ++ known_items ring.new) }
        ensures none { self.new ≡ [] → known_items ring.new ≡ [] }
    {
        self.next = 0;
        self.end = ring.pop_partial_slice(&mut self.items);
    }

    /// How many items they are.
    pub fn len(&self) -> usize
        ensures { (result ≡ length self.now) × (result ≤ LINK_ROOM) }
    {
        self.end - self.next
    }
}
