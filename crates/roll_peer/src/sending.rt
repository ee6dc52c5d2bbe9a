//! What is sent.
ghost use Rattle.std.specs.Prelude.{◌≡◌, ◌<◌, ◌%◌, ◌==◌, ◌||◌, not, true, false, is_none, nat_lt, Some, None, IfOk, IfSome, OnErr, OnOk, if◌then◌else◌};
ghost use Rattle.roll_contact.specs.Contacts.{clocks_for, is_playing};
ghost use Rattle.roll_contact.specs.Seals.{message_by};
ghost use Rattle.roll_member.specs.Beside.{IsOf};
ghost use Rattle.roll_member.specs.Joined.{IsTied};
ghost use Rattle.roll_mesh.specs.declared.limits.TheConstants.{MACHINE_LIMIT};
ghost use Rattle.roll_peer.specs.Peered.{contact_at};
ghost use Rattle.roll_peer.specs.Receiving.{meeting, moment_of, ticking, IsOther};
ghost use Rattle.roll_peer.specs.Sending.{after_send, clocks_in, is_lost, key_for, settled_in, stats_of, text_for, IsContentFor, IsPlayFor, IsSent};
ghost use Rattle.roll_wire.specs.Spelling.{content, is_turn, is_whole, turn, Fits, Leaves};

use crate::peer::Peer;
use crate::refusal::OtherSession;
use crate::stats::Stats;
use arrayvec::ArrayVec;
use roll_contact::seal::say;
use roll_contact::{Contact, Key};
use roll_member::Told;
use roll_mesh::Packet;
use roll_session::Networked;
use roll_wire::{Body, Clocks, DATAGRAM_LIMIT, Head, Play, Settled};

/// In how many datagrams to a machine one tells the digest of a settled state.
const SETTLED_EVERY: u32 = 64;

impl Peer {
    /// The bytes to send to a machine in this turn: until it has said this opening's draw who this machine takes the match's machines
    /// to be, and then what the machine hasn't said that it has, and each mark that is known here of a word that has
    /// come. None if there is no such machine, it is this one, or it is gone.
    ///
    /// # Errors
    ///
    /// If the session isn't this match's. Nothing changed then but the clock.
    #[tactic(auto, using(crate::proofs::Said::after_send_is))]
    pub fn send<S: Networked>(
        &mut self,
        session: &S,
        machine: u8,
        now: u32,
    ) -> Result<Option<ArrayVec<u8, DATAGRAM_LIMIT>>, OtherSession>
        ensures sent { IfOk result
            (λ sent. IfSome sent
            (λ bytes. IsSent (S.seen session.now)
            (meeting (S.seen session.now) (ticking now self.old)) machine bytes.items)) }
        ensures lost { IfOk result (λ sent. is_none sent ≡ is_lost self.old machine) }
        ensures counted { OnOk result
            (self.new ≡ after_send (meeting (S.seen session.now) (ticking now self.old)) machine) }
        ensures accepted { OnOk result (IsOf (S.seen session.now) self.old.member) }
        ensures other { OnErr result (IsOther (S.seen session.now) self.old) }
        ensures unchanged { OnErr result (self.new ≡ ticking now self.old) }
    {
        self.clock.tick(now);
        if !self.member.meet(session) {
            return Err(OtherSession);
        }
        if self.is_lost(machine) {
            return Ok(None);
        }
        let bytes = self.bytes_for(session, machine);
        self.count_sent(machine);
        Ok(Some(bytes))
    }

    /// A datagram was sent to a machine.
    #[tactic(auto, using(crate::proofs::Said::after_send_to))]
    fn count_sent(&mut self, machine: u8)
        requires place { machine < MACHINE_LIMIT }
        requires there { is_lost self.old machine ≡ false }
        ensures { self.new ≡ after_send self.old machine }
    {
        let contact = &mut self.contacts[usize::from(machine)];
        if contact.says_hello() {
            contact.hello_sent();
        } else {
            contact.play_sent(self.clock.moment);
        }
    }

    /// The bytes for a machine.
    fn bytes_for<S: Networked>(&mut self, session: &S, machine: u8) -> ArrayVec<u8, DATAGRAM_LIMIT>
        requires tied { IsTied (S.seen session.now) self.old.member.mesh }
        requires place { machine < MACHINE_LIMIT }
        ensures sent { IsSent (S.seen session.now) self.old machine result.items }
        ensures same { self.new ≡ self.old }
    {
        let contact = self.contacts[usize::from(machine)];
        if contact.says_hello() {
            let hello = self
                .settings
                .terms()
                .hello(&self.settings.opening(), contact.hello_echo());
            self.sealed_for(machine, Body::Hello(hello))
        } else {
            let play = self.play_for(session, machine);
            self.sealed_for(machine, Body::Play(play))
        }
    }

    /// By what a datagram for a machine is sealed.
    fn key_for(&self, machine: u8, body: &Body) -> Key
        requires { machine < MACHINE_LIMIT }
        ensures { result ≡ key_for self.now machine (content body.now) }
    {
        let number = self.settings.number_for(machine);
        match body {
            Body::Hello(_) => Key::of_hellos(number),
            _ => Key {
                number,
                from: self.settings.draw,
                to: self.contacts[usize::from(machine)].draw,
            },
        }
    }

    /// A datagram of this machine for another.
    fn sealed_for(&mut self, machine: u8, body: Body) -> ArrayVec<u8, DATAGRAM_LIMIT>
        requires place { machine < MACHINE_LIMIT }
        requires whole { is_whole (content body) ≡ true }
        ensures said { result.items ≡ text_for self.old machine (content body) }
        ensures fits { Fits (message_by (key_for self.old machine (content body))
            self.old.settings.me (content body)) }
        ensures same { self.new ≡ self.old }
    {
        let key = self.key_for(machine, &body);
        let sealer = &mut self.sealers[usize::from(machine)];
        sealer.turn_to(&key);
        sealer.say(self.settings.me, body)
    }

    /// Whether nothing is sent to a machine: there is none of this number, it is this one, or it is gone.
    pub fn is_lost(&self, machine: u8) -> bool
        ensures { result ≡ is_lost self.now machine }
    {
        let seat = self.member.mesh().seat();
        machine >= seat.machines || machine == seat.me || self.member.mesh().is_gone(machine)
    }

    /// One more than the greatest number of a play of a machine that was heard, 0 if none was: what rises by one that is newer than all
    /// before.
    pub fn after(&self, machine: u8) -> u32
        ensures { result ≡ (contact_at self.now machine).after }
    {
        match self.contacts.get(usize::from(machine)) {
            Some(contact) => contact.after,
            None => 0,
        }
    }

    /// How far this machine is, and when it sends, if that is due.
    fn clocks_for(&self, frame: u32, contact: &Contact) -> Option<Clocks>
        ensures { result ≡ clocks_in frame self.now contact.now }
    {
        if contact.wants_clocks(self.clock.moment) {
            Some(contact.mine(frame, self.clock.moment))
        } else {
            None
        }
    }

    /// The digest of the last settled state that was noted, in one packet of 64; to a machine whose states differ one by which the
    /// first frame that does is sought.
    fn settled_for(&self, machine: u8, number: u32) -> Option<Settled>
        requires { machine < MACHINE_LIMIT }
        ensures { result ≡ settled_in self.now machine number }
    {
        let comparison = self.comparisons[usize::from(machine)];
        match comparison.sought(self.clock.moment) {
            Some(differs) => comparison.seeking(&self.digests, number, differs),
            None if number % SETTLED_EVERY == 1 => self.digests.last(),
            None => None,
        }
    }

    /// A turn for a machine.
    fn play_for<S: Networked>(&self, session: &S, machine: u8) -> Play
        requires tied { IsTied (S.seen session.now) self.now.member.mesh }
        requires place { machine < MACHINE_LIMIT }
        ensures told { IsPlayFor (S.seen session.now) self.now machine (turn result) }
        ensures whole { is_turn (turn result) ≡ true }
    {
        let Told { packet, words } = self.member.tell(session, machine);
        let Packet { view, offers, .. } = packet.shortened();
        let contact = self.contacts[usize::from(machine)];
        let marks = self.told_marks(&offers);
        let head = Head {
            number: contact.sent,
            clocks: self.clocks_for(session.frame(), &contact),
            view,
            settled: self.settled_for(machine, contact.sent),
            offers,
        };
        Play { head, marks, words }
    }

    /// What was counted and measured of a machine. None if there is none of this number.
    #[tactic(auto, using(crate::proofs::Said::stats_are))]
    pub fn stats(&self, machine: u8) -> Option<Stats>
        ensures { result ≡ (if nat_lt machine MACHINE_LIMIT
            then Some (stats_of self.now machine) else None) }
    {
        let contact = self.contacts.get(usize::from(machine))?;
        let words_queued = if self.is_lost(machine) {
            0
        } else {
            self.member.queued(machine)
        };
        Some(Stats {
            round_trip: contact.round_trip,
            sent: contact.sent,
            received: contact.received,
            lost: contact.expected.saturating_sub(contact.received),
            words_queued,
            frames_behind: contact.behind,
            their_frames_behind: contact.their_behind,
            refused: contact.refused,
            dropped: contact.dropped,
            restarted: contact.restarted != 0,
        })
    }

    /// The bytes that say to a machine that this one leaves the match, and why: whatever the program means by it. Send them a few times,
    /// since they may be lost. None if there is no such machine, it is this one, it is gone, or it hasn't said this opening's draw.
    pub fn bye(&self, machine: u8, why: u8) -> Option<ArrayVec<u8, DATAGRAM_LIMIT>>
        ensures said { IfSome result (λ bytes. bytes.items ≡ text_for self.now machine
            (Leaves why)) }
        ensures fits { IfSome result
            (λ bytes. Fits (message_by (key_for self.now machine (Leaves why)) self.now.settings.me
            (Leaves why))) }
        ensures none { is_none result
            ≡ (is_lost self.now machine || not (is_playing (contact_at self.now machine).stage)) }
    {
        if self.is_lost(machine) || !self.contacts[usize::from(machine)].is_playing() {
            return None;
        }
        let body = Body::Bye { why };
        Some(say(&self.key_for(machine, &body), self.settings.me, body))
    }
}
