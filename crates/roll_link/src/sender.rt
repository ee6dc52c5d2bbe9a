//! The end of a link that another thread has.
ghost use Rattle.std.specs.Prelude.{◌≡◌, ◌<◌, [], ◌∷◌, ◌++◌, length, IsOk, OnOk, OnErr, IfErr, IfSome};
ghost use Rattle.roll_link.specs.Rings.{ring_at, IsFresh};
ghost use Rattle.roll_link.specs.declared.link.TheConstants.{LINK_ROOM as ROOM};

use crate::remote::Remote;
use roll_frame::Refusal;
use rtrb::{Finished as FinishedRing, Producer};
use std::marker::Model;

/// The end that another thread sends by. It can move to that thread. Where it is dropped, the owner still gets what was sent.
#[derive(Drop)]
pub struct LinkSender {
    producer: Producer<Remote>,
}

/// A clause sees which link it is of, and the items that were sent.
impl Model for LinkSender {
    ghost use Rattle.std.specs.Prelude.{◌≤◌, ◌+◌, length};
    ghost use Rattle.rtrb.specs.Ring.{sent, known_free};
    ghost use Rattle.roll_link.specs.Rings.{ring_at};
    ghost use Rattle.roll_link.specs.Linked.{Sending};
    ghost use Rattle.roll_link.specs.declared.link.TheConstants.{LINK_ROOM};

    ghost Value = { Sending };

    ghost view = { λ s. record { ring = ring_at s.producer.end; sent = sent s.producer } };

    ghost invariant = { λ s. LINK_ROOM ≤ known_free s.producer + length (sent s.producer) };
}

/// What is left of a sender that has finished: by it the owner of the link can tell what was sent.
#[derive(Drop)]
pub struct Finished {
    pub(crate) ring: FinishedRing<Remote>,
}

/// A clause sees which link it is of, and the items that were sent.
impl Model for Finished {
    ghost use Rattle.rtrb.specs.Ring.{all_sent};
    ghost use Rattle.roll_link.specs.Rings.{ring_at};
    ghost use Rattle.roll_link.specs.Linked.{Sending};

    ghost Value = { Sending };

    ghost view = { λ f. record { ring = ring_at f.ring.end; sent = all_sent f.ring } };
}

/// An item that was not sent, and why.
#[derive(Clone, Copy, Debug, PartialEq, Eq)]
pub struct SendFault {
    pub why: Refusal,
    pub item: Remote,
}

impl LinkSender {
    /// The end of a new ring.
    pub(crate) fn new(producer: Producer<Remote>) -> LinkSender
        requires { IsFresh producer }
        ensures { result ≡ record { ring = ring_at producer.end; sent = [] } }
    {
        LinkSender { producer }
    }

    /// Sends an item. It waits for nobody, and takes no memory.
    ///
    /// # Errors
    ///
    /// `Full` if the ring has no place, with the item: later there may be one. The first 64 items have a place.
    pub fn send(&mut self, item: Remote) -> Result<(), SendFault>
        ensures sent { OnOk result
            (self.new ≡ record self.old { sent = self.old.sent ++ item ∷ [] }) }
        ensures refused { IfErr result
            (λ fault. fault ≡ record { why = Refusal.Full; item = item }) }
        ensures unchanged { OnErr result (self.new ≡ self.old) }
        ensures room { length self.old.sent < ROOM → IsOk result }
    {
        if self.producer.push(item).is_err() {
            let why = Refusal::Full;
            return Err(SendFault { why, item });
        }
        Ok(())
    }

    /// Ends the link. None if the owner let go of the link before.
    pub fn finish(self) -> Option<Finished>
        ensures { IfSome result (λ finished. finished ≡ self) }
    {
        let LinkSender { producer } = self;
        let ring = producer.finish()?;
        Some(Finished { ring })
    }
}
