//! The network of a match beside a session from which words are held back.
ghost use Rattle.std.specs.Prelude.{◌≡◌, [], length, IfErr, IfOk, OnErr, OnOk};
ghost use Rattle.roll_relay.specs.Heard.{beside, PollsHeld};
ghost use Rattle.roll_relay.specs.Relayed.{bytes_of, relayed_beside, HearsHeldBy, SendsBy};
ghost use Rattle.roll_relay.specs.Told.{as_told, roomier, IsHeldFault};
ghost use Rattle.roll_relay.specs.Waits.{Waits};

use crate::fault::HeldFault;
use crate::heard::Heard;
use crate::held::Held;
use crate::relay::Relay;
use crate::session::HeldSession;
use crate::words::make_room;
use arrayvec::ArrayVec;
use roll_peer::{Ignored, OtherSession, Peer, PeerRefusal};
use roll_session::Settling;
use roll_wire::DATAGRAM_LIMIT;

impl Held {
    /// Hears bytes that came by the network, as [`Relay::receive`] does and with what it says, but holds back the words of others:
    /// they wait here until they are handed over. To the network the session is one that has heard them, so they are acknowledged.
    /// No clause says that a word does wait, since to the network it is the same; a test does (`tests/c/held.c`).
    ///
    /// # Errors
    ///
    /// As `hand_over`. Nothing is changed then.
    pub fn receive<S: Settling>(
        &mut self,
        relay: &mut Relay,
        peer: &mut Peer,
        session: &mut S,
        bytes: &[u8],
        now: u32,
    ) -> Result<Result<Heard, Ignored>, HeldFault>
        ensures heard { IfOk result
            (HearsHeldBy S.step now (relayed_beside (S.seen session.old) self.old.words.items
            peer.old relay.old) (relayed_beside (S.seen session.new) self.new.words.items peer.new
            relay.new) bytes.now) }
        ensures waits { Waits (S.seen session.old) (S.seen session.new) self.old self.new }
        ensures ignored { IfOk result (λ said. OnErr said ((self.new ≡ self.old)
            × (self.old.words.items ≡ [] → session.new ≡ session.old))) }
        ensures refused { IfErr result (IsHeldFault (S.seen session.old) self.old.words.items) }
        ensures unchanged { OnErr result ((self.new ≡ self.old) × (session.new ≡ session.old)
            × (peer.new ≡ peer.old) × (relay.new ≡ relay.old)) }
        ensures keeps { S.keeps session.old session.new }
    {
        match make_room(session, &self.words) {
            Ok(()) => {
                let mut ahead = HeldSession {
                    session,
                    held: self,
                    reserved: 0,
                };
                Ok(relay.receive(peer, &mut ahead, bytes, now))
            }
            Err(why) => Err(why),
        }
    }

    /// What a turn does before it plays, as [`Peer::poll`] does and with what it says. Before a player leaves the session, all words
    /// that wait are handed over.
    ///
    /// # Errors
    ///
    /// As `hand_over`. Nothing is changed then.
    pub fn poll<S: Settling>(
        &mut self,
        peer: &mut Peer,
        session: &mut S,
        now: u32,
    ) -> Result<Result<(), PeerRefusal>, HeldFault>
        ensures polled { IfOk result (PollsHeld
            (beside (S.seen session.old) self.old.words.items peer.old)
            (beside (S.seen session.new) self.new.words.items peer.new) now) }
        ensures waits { Waits (S.seen session.old) (S.seen session.new) self.old self.new }
        ensures refused { IfErr result (IsHeldFault (S.seen session.old) self.old.words.items) }
        ensures unchanged { OnErr result ((self.new ≡ self.old) × (session.new ≡ session.old)
            × (peer.new ≡ peer.old)) }
        ensures keeps { S.keeps session.old session.new }
    {
        match make_room(session, &self.words) {
            Ok(()) => {
                let mut ahead = HeldSession {
                    session,
                    held: self,
                    reserved: 0,
                };
                Ok(peer.poll(&mut ahead, now))
            }
            Err(why) => Err(why),
        }
    }

    /// The bytes to send to a machine straight in this turn, as [`Relay::send`] makes them and with what it says: the words that wait
    /// are acknowledged. Of the session nothing changes but for how many events it has room, and not that if no word waits.
    ///
    /// # Errors
    ///
    /// As `hand_over`. Nothing is changed then.
    pub fn send<S: Settling>(
        &mut self,
        relay: &mut Relay,
        peer: &mut Peer,
        session: &mut S,
        machine: u8,
        now: u32,
    ) -> Result<Result<Option<ArrayVec<u8, DATAGRAM_LIMIT>>, OtherSession>, HeldFault>
        ensures sent { IfOk result
            (λ said. SendsBy (as_told (S.seen session.old) self.old.words.items 0) now machine
            peer.old peer.new relay.old relay.new (bytes_of (λ bytes. bytes.items) said)) }
        ensures same { self.new ≡ self.old }
        ensures session { OnOk result (S.seen session.new
            ≡ roomier (length self.old.words.items) (S.seen session.old)) }
        ensures untouched { self.old.words.items ≡ [] → session.new ≡ session.old }
        ensures refused { IfErr result (IsHeldFault (S.seen session.old) self.old.words.items) }
        ensures unchanged { OnErr result ((session.new ≡ session.old) × (peer.new ≡ peer.old)
            × (relay.new ≡ relay.old)) }
        ensures keeps { S.keeps session.old session.new }
    {
        match make_room(session, &self.words) {
            Ok(()) => {
                let ahead = HeldSession {
                    session,
                    held: self,
                    reserved: 0,
                };
                Ok(relay.send(peer, &ahead, machine, now))
            }
            Err(why) => Err(why),
        }
    }
}
