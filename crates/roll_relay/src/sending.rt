//! What goes by a line that may be broken.
ghost use Rattle.std.specs.Prelude.{◌≡◌, ◌≤◌, length, true, is_none, is_some, option_map, not, ◌||◌, IfErr, IfOk, IfSome, OnErr};
ghost use Rattle.roll_contact.specs.Contacts.{is_playing};
ghost use Rattle.roll_carry.specs.Carrying.{first_owed, first_waited_for};
ghost use Rattle.roll_carry.specs.Reading.{parcels_in, IsArea};
ghost use Rattle.roll_carry.specs.Spelling.{given_by, said_by, Maps};
ghost use Rattle.roll_carry.specs.declared.limits.TheConstants.{AREA_LIMIT, TAIL_LEAST, TAIL_LIMIT};
ghost use Rattle.roll_mesh.specs.declared.limits.TheConstants.{MACHINE_LIMIT};
ghost use Rattle.roll_peer.specs.Peered.{contact_at};
ghost use Rattle.roll_peer.specs.Receiving.{ticking, IsOther};
ghost use Rattle.roll_peer.specs.Sending.{can_carry, is_lost, with_draws};
ghost use Rattle.roll_relay.specs.Relaying.{at_once, carried_of, is_at_once, leaving, sending, told_map, ready_of, IsNext, IsNextMap, IsNextParcels, SaysBye, Sends};

use crate::relay::{Relay, ready_of, shut_of};
use arrayvec::ArrayVec;
use roll_carry::{lone_datagram, say_map, say_parcels, tail_of};
use roll_contact::Key;
use roll_peer::{OtherSession, Peer};
use roll_session::Networked;
use roll_wire::DATAGRAM_LIMIT;

impl Relay {
    /// The bytes to send to a machine at once, as the peer makes them. If the line between the two doesn't work both ways, they wait for
    /// a carrier, to go by `next`. None if the peer sends none; if the other machine doesn't hear this one and somebody carries: then
    /// they go straight in one turn of 17 alone; or if something may be carried to that machine in this turn: then what goes straight
    /// goes with it, by `next`.
    ///
    /// # Errors
    ///
    /// If the session isn't this match's. Nothing changed then but the peer's clock.
    pub fn send<S: Networked>(
        &mut self,
        peer: &mut Peer,
        session: &S,
        machine: u8,
        now: u32,
    ) -> Result<Option<ArrayVec<u8, DATAGRAM_LIMIT>>, OtherSession>
        ensures sent { IfOk result (λ sent. Sends (S.seen session.now) now machine peer.old peer.new
            self.old self.new (option_map (λ bytes. bytes.items) sent)) }
        ensures other { OnErr result (IsOther (S.seen session.now) peer.old) }
        ensures peer { OnErr result (peer.new ≡ ticking now peer.old) }
        ensures unchanged { OnErr result (self.new ≡ self.old) }
    {
        match peer.send(session, machine, now) {
            Ok(Some(bytes)) => Ok(self.pass(peer, machine, bytes)),
            Ok(None) => Ok(None),
            Err(other) => Err(other),
        }
    }

    /// The peer's datagram for a machine, if it goes out at once. Else it is carried, or waits to go with what is.
    fn pass(
        &mut self,
        peer: &Peer,
        machine: u8,
        bytes: ArrayVec<u8, DATAGRAM_LIMIT>,
    ) -> Option<ArrayVec<u8, DATAGRAM_LIMIT>>
        ensures sent { self.new
            ≡ sending peer.now machine (carried_of self.old bytes.items) self.old }
        ensures at_once { option_map (λ sent. sent.items) result
            ≡ at_once peer.now machine bytes.items self.old }
    {
        if self.hand_over(peer, machine, &bytes) {
            Some(bytes)
        } else {
            None
        }
    }

    /// What is carried of a datagram is handed over, if it can be. Says whether the datagram goes out at once.
    fn hand_over(&mut self, peer: &Peer, machine: u8, bytes: &[u8]) -> bool
        ensures sent { self.new ≡ sending peer.now machine (carried_of self.old bytes.now) self.old }
        ensures at_once { result
            ≡ is_at_once peer.now machine (carried_of self.old bytes.now) self.old }
    {
        match self.carried_of(bytes) {
            Some(tail) => self.carrier.send(&shut_of(peer), machine, tail),
            None => true,
        }
    }

    /// What is carried of a datagram, if it can be, and somebody carries.
    #[tactic(auto, unfolding(crate::specs::Relaying::carried_of))]
    fn carried_of<'a>(&self, bytes: &'a [u8]) -> Option<&'a [u8]>
        ensures exact { option_map (λ tail. tail.now) result ≡ carried_of self.now bytes.now }
        ensures least { IfSome result (λ tail. TAIL_LEAST ≤ length tail.now) }
        ensures most { IfSome result (λ tail. length tail.now ≤ TAIL_LIMIT) }
    {
        if self.has_carriers() {
            tail_of(bytes)
        } else {
            None
        }
    }

    /// A bye of this machine is carried, if the line between the two isn't whole.
    fn carry(&mut self, peer: &Peer, machine: u8, bytes: &[u8])
        ensures { self.new ≡ leaving peer.now machine (carried_of self.old bytes.now) self.old }
    {
        if let Some(tail) = self.carried_of(bytes) {
            self.carrier.carry(&shut_of(peer), machine, tail);
        }
    }

    /// The bytes that say to a machine that this one leaves the match, and why, as the peer makes them: they go straight. If the line
    /// between the two doesn't work both ways, they wait for a carrier too.
    pub fn bye(&mut self, peer: &Peer, machine: u8, why: u8) -> Option<ArrayVec<u8, DATAGRAM_LIMIT>>
        ensures said { SaysBye peer.now machine why self.old self.new
            (option_map (λ bytes. bytes.items) result) }
        ensures none { is_none result
            ≡ (is_lost peer.now machine || not (is_playing (contact_at peer.now machine).stage)) }
    {
        match peer.bye(machine, why) {
            Some(bytes) => {
                self.carry(peer, machine, &bytes);
                Some(bytes)
            }
            None => None,
        }
    }

    /// What this machine tells another of who hears whom.
    fn map_for(&self, peer: &Peer, machine: u8) -> ArrayVec<u8, DATAGRAM_LIMIT>
        requires { can_carry peer.now machine ≡ true }
        ensures { result.items ≡ said_by (with_draws peer.now machine) peer.now.settings.me
            (Maps (told_map self.now)) }
    {
        let map = self.carrier.map();
        say_map(
            &key_for(peer, machine),
            peer.settings().me,
            &map.lines[..usize::from(map.machines)],
        )
    }

    /// The next bytes that go out beside what `send` makes, and to which machine: first who hears whom, once in a turn
    /// to each; then what others have had this machine hand on, or this one others, of each machine the oldest first.
    /// They are sealed by the draws of both openings; a datagram of the peer's that goes straight, and is alone, is
    /// given as it is. None if there is nothing more in this turn.
    pub fn next(&mut self, peer: &Peer) -> Option<(u8, ArrayVec<u8, DATAGRAM_LIMIT>)>
        ensures { IsNext peer.now self.old self.new (option_map (λ x. (x.0, x.1.items)) result) }
    {
        match self.next_map(peer) {
            Some(told) => Some(told),
            None => self.next_parcels(peer),
        }
    }

    /// The map for the first machine to which it is still to go in this turn.
    fn next_map(&mut self, peer: &Peer) -> Option<(u8, ArrayVec<u8, DATAGRAM_LIMIT>)>
        ensures told { IsNextMap peer.now self.old self.new
            (first_owed self.old (ready_of peer.now)) (option_map (λ x. (x.0, x.1.items)) result) }
        ensures some { is_some result ≡ is_some (first_owed self.old (ready_of peer.now)) }
    {
        let machine = self.carrier.next_to_tell(&ready_of(peer))?;
        Some((machine, self.map_for(peer, machine)))
    }

    /// The parcels that wait for the first machine for which some wait.
    fn next_parcels(&mut self, peer: &Peer) -> Option<(u8, ArrayVec<u8, DATAGRAM_LIMIT>)>
        ensures { IsNextParcels peer.now self.old self.new
            (first_waited_for self.old (ready_of peer.now))
            (option_map (λ x. (x.0, x.1.items)) result) }
    {
        let (machine, area) = self.carrier.take(&ready_of(peer))?;
        Some((machine, given_to(peer, machine, &area)))
    }
}

/// The bytes by which parcels go to a machine: one datagram that goes straight as it is.
fn given_to(peer: &Peer, machine: u8, area: &[u8]) -> ArrayVec<u8, DATAGRAM_LIMIT>
    requires carries { can_carry peer.now machine ≡ true }
    requires few { length area.now ≤ AREA_LIMIT }
    requires parcels { IsArea area.now }
    ensures { result.items
        ≡ given_by (with_draws peer.now machine) peer.now.settings.me (parcels_in area.now) }
{
    match lone_datagram(area) {
        Some(bytes) => bytes,
        None => say_parcels(&key_for(peer, machine), peer.settings().me, area),
    }
}

/// By what this machine seals what it tells, or hands on, another.
fn key_for(peer: &Peer, machine: u8) -> Key
    requires { can_carry peer.now machine ≡ true }
    ensures { result ≡ with_draws peer.now machine }
{
    match peer.carrier_key(machine) {
        Some(key) => key,
        None => unreachable!(),
    }
}
