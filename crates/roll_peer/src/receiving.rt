//! Bytes that come are heard.
ghost use Rattle.std.specs.Prelude.{◌≡◌, ◌<◌, is_some, true, None, Some, IfErr, IfOk, IfSome, IsNone, IsSome, OnErr, OnOk};
ghost use Rattle.roll_contact.specs.Contacts.{refused};
ghost use Rattle.roll_mesh.specs.declared.limits.TheConstants.{MACHINE_LIMIT};
ghost use Rattle.roll_member.specs.Beside.{IsOf};
ghost use Rattle.roll_member.specs.Hearing.{HearsPacket};
ghost use Rattle.roll_member.specs.Joined.{IsTied};
ghost use Rattle.roll_mesh.specs.Meshes.{is_had};
ghost use Rattle.roll_peer.specs.Marks.{is_spelled_in};
ghost use Rattle.roll_peer.specs.Peered.{beside, contact_at};
ghost use Rattle.roll_peer.specs.Receiving.{after_ignored, after_words, byte_at, deaf_to, end_for, greets, ignored, ignored_sized, is_dropped, is_refusal, is_sized, is_unknown, key_of, knowing, marks_after, meeting, moment_of, open_by, opened, packet_of, read_text, refused_of, sender_of, ticking, unheard, unplayed, with_stranger, Hears, HearsBye, HearsHello, HearsTurn, IsIgnored, IsOpened, Receives};
ghost use Rattle.roll_wire.specs.Reading.{Gives};
ghost use Rattle.roll_wire.specs.Spelling.{are_spelled, content, message, turn, Plays};

use crate::judging::{are_no_more, is_inside};
use crate::marking::offered_marks;
use crate::peer::Peer;
use crate::received::{Ignored, Received};
use roll_contact::seal::Sealer;
use roll_contact::{Contact, Key};
use roll_member::Taken;
use roll_mesh::{Heard, MACHINE_LIMIT, Packet};
use roll_session::Networked;
use roll_wire::{
    Body, DATAGRAM_LIMIT, Datagram, Head, Hello, Play, WireFault, decode, decode_unmarked,
};

/// Where a datagram has its sender's number, and its kind.
const SENDER_AT: usize = 12;

const KIND_AT: usize = 13;
/// How many bytes each datagram has at least.
const HEAD: usize = 14;

impl Peer {
    /// Hears bytes that came by the network, at a moment. Words that they hold become words of the session, and what its sender
    /// knows is known here; nothing else changes. What isn't of this match, or of another opening of its sender or of this machine,
    /// changes nothing, but that hellos which aren't of this match are counted. It takes memory for the log alone, and none for events
    /// that were reserved.
    ///
    /// A hello is read by the number of the pair of machines alone, and anything else by the draws of both openings
    /// too. Each new word of a play reaches the session once, in order, as far as the session takes them. A mark is
    /// known by the play that brings its word, if none of that player was known before. Of frames after a mark that
    /// isn't void no words are taken, but of machines that are gone, as long as words up to the mark's frame are waited
    /// for.
    ///
    /// # Errors
    ///
    /// Why they weren't heard. Then nothing changed but the clock and the count of strangers; and of what its sender sealed it is
    /// counted and told that it was refused.
    pub fn receive<S: Networked>(
        &mut self,
        session: &mut S,
        bytes: &[u8],
        now: u32,
    ) -> Result<Received, Ignored>
        ensures received { IfOk result (Receives S.step (S.seen session.old) (S.seen session.new)
            (meeting (S.seen session.old) (ticking now self.old)) self.new bytes.now) }
        ensures tied { OnOk result (IsTied (S.seen session.new) self.new.member.mesh) }
        ensures accepted { OnOk result (IsOf (S.seen session.old) self.old.member) }
        ensures fine { OnOk result
            (ignored (meeting (S.seen session.old) (ticking now self.old)) bytes.now ≡ None) }
        ensures refused { IfErr result
            (IsIgnored (S.seen session.old) (ticking now self.old) self.new bytes.now) }
        ensures session { OnErr result (session.new ≡ session.old) }
        ensures keeps { S.keeps session.old session.new }
    {
        self.clock.tick(now);
        if !self.member.meet(session) {
            return Err(Ignored::OtherSession);
        }
        if !is_sized(bytes) {
            return Err(Ignored::NotSealed);
        }
        match self.receive_sized(session, bytes) {
            Ok(received) => Ok(received),
            Err(why) => {
                self.note_stranger(bytes, why);
                Err(why)
            }
        }
    }

    /// A hello that isn't of this match is counted.
    fn note_stranger(&mut self, bytes: &[u8], why: Ignored)
        ensures { self.new ≡ with_stranger bytes.now why self.old }
    {
        if greets(bytes) && is_unknown(why) {
            self.strangers.note();
        }
    }

    /// Hears bytes that are as many as a datagram has, at the moment that the clock shows.
    #[tactic(auto, using(crate::proofs::Said::ignored_is))]
    fn receive_sized<S: Networked>(
        &mut self,
        session: &mut S,
        bytes: &[u8],
    ) -> Result<Received, Ignored>
        requires tied { IsTied (S.seen session.old) self.old.member.mesh }
        ensures received { IfOk result (Receives S.step (S.seen session.old) (S.seen session.new)
            self.old self.new bytes.now) }
        ensures tied { OnOk result (IsTied (S.seen session.new) self.new.member.mesh) }
        ensures accepted { OnOk result (ignored_sized self.old bytes.now ≡ None) }
        ensures ignored { IfErr result (λ why. ignored_sized self.old bytes.now ≡ Some why) }
        ensures refused { IfErr result
            (λ why. self.new ≡ after_ignored (sender_of bytes.now) why self.old) }
        ensures session { OnErr result (session.new ≡ session.old) }
        ensures keeps { S.keeps session.old session.new }
    {
        let sender = byte_of(bytes, SENDER_AT);
        if let Some(why) = self.deaf_to(sender) {
            return Err(why);
        }
        match self.body_of(sender, bytes) {
            Ok(body) => self.hear(session, sender, body),
            Err(why) => {
                self.note_ignored(sender, why);
                Err(why)
            }
        }
    }

    /// What was ignored is counted and told, if its sender sealed it.
    fn note_ignored(&mut self, sender: u8, why: Ignored)
        requires { sender < MACHINE_LIMIT }
        ensures { self.new ≡ after_ignored sender why self.old }
    {
        if is_refusal(why) {
            self.note_refused(sender);
        }
    }

    /// Something that a machine sealed was refused.
    fn note_refused(&mut self, sender: u8)
        requires { sender < MACHINE_LIMIT }
        ensures { self.new ≡ refused_of sender self.old }
    {
        let place = usize::from(sender);
        let before = self.contacts[place];
        let mut contact = before;
        contact.refuse();
        self.contacts[place] = contact;
        self.events.heard(sender, &before, &contact);
    }

    /// Why a machine isn't heard at all.
    fn deaf_to(&self, sender: u8) -> Option<Ignored>
        ensures why { result ≡ deaf_to self.now sender }
        ensures place { IsNone result → sender < MACHINE_LIMIT }
    {
        let seat = self.member.mesh().seat();
        if sender >= seat.machines {
            Some(Ignored::InvalidMachine)
        } else if sender == seat.me {
            Some(Ignored::OwnMachine)
        } else if self.member.mesh().is_gone(sender) {
            Some(Ignored::MachineGone)
        } else {
            None
        }
    }

    /// By what a datagram of a kind is sealed that a machine sent. None, if it hasn't said this opening's draw.
    fn key_of(&self, sender: u8, kind: u8) -> Option<Key>
        requires { sender < MACHINE_LIMIT }
        ensures { result ≡ key_of self.now sender kind }
    {
        let number = self.settings.number_for(sender);
        let contact = &self.contacts[usize::from(sender)];
        if kind == 0 {
            Some(Key::of_hellos(number))
        } else if contact.is_playing() {
            Some(Key {
                number,
                from: contact.draw,
                to: self.settings.draw,
            })
        } else {
            None
        }
    }

    /// What bytes hold that a machine sent.
    #[tactic(auto, using(crate::proofs::Said::opened_is))]
    fn body_of(&mut self, sender: u8, bytes: &[u8]) -> Result<Body, Ignored>
        requires place { sender < MACHINE_LIMIT }
        requires sent { sender ≡ sender_of bytes.now }
        ensures opened { IsOpened result (opened self.old bytes.now) }
        ensures spelled { IfOk result (λ body. is_spelled_in (content body) ≡ true) }
        ensures same { self.new ≡ self.old }
    {
        match self.key_of(sender, byte_of(bytes, KIND_AT)) {
            Some(key) => {
                let sealer = &mut self.openers[usize::from(sender)];
                sealer.turn_to(&key);
                open_by(self.settings.takes_marks, sealer, bytes)
            }
            None => Err(Ignored::NotSealed),
        }
    }

    /// What was opened is heard, at the moment that the clock shows.
    fn hear<S: Networked>(
        &mut self,
        session: &mut S,
        sender: u8,
        body: Body,
    ) -> Result<Received, Ignored>
        requires tied { IsTied (S.seen session.old) self.old.member.mesh }
        requires place { sender < MACHINE_LIMIT }
        requires listened { deaf_to self.old sender ≡ None }
        requires spelled { is_spelled_in (content body) ≡ true }
        ensures heard { IfOk result (Hears S.step (S.seen session.old) (S.seen session.new) self.old
            self.new sender (content body)) }
        ensures tied { OnOk result (IsTied (S.seen session.new) self.new.member.mesh) }
        ensures session { OnErr result (session.new ≡ session.old) }
        ensures keeps { S.keeps session.old session.new }
        ensures accepted { OnOk result (unheard self.old sender (content body) ≡ None) }
        ensures refused { IfErr result (λ why. unheard self.old sender (content body) ≡ Some why) }
        ensures counted { IfErr result (λ why. self.new ≡ after_ignored sender why self.old) }
    {
        match body {
            Body::Hello(hello) => {
                self.hear_hello(sender, &hello);
                Ok(Received::Hello { sender })
            }
            Body::Play(play) => self.hear_play(session, sender, &play),
            Body::Bye { why } => {
                self.hear_bye(sender, why);
                Ok(Received::Bye { sender })
            }
        }
    }

    /// A hello is heard.
    fn hear_hello(&mut self, sender: u8, hello: &Hello)
        requires { sender < MACHINE_LIMIT }
        ensures { HearsHello self.old self.new sender hello.now }
    {
        let place = usize::from(sender);
        let mismatch = self.settings.terms().mismatch(hello);
        let before = self.contacts[place];
        let mut contact = before;
        contact.hello(&self.settings.opening(), mismatch, hello, self.clock.moment);
        self.contacts[place] = contact;
        self.events.heard(sender, &before, &contact);
    }

    /// A play is heard, unless it is refused.
    fn hear_play<S: Networked>(
        &mut self,
        session: &mut S,
        sender: u8,
        play: &Play,
    ) -> Result<Received, Ignored>
        requires tied { IsTied (S.seen session.old) self.old.member.mesh }
        requires place { sender < MACHINE_LIMIT }
        requires listened { deaf_to self.old sender ≡ None }
        requires spelled { are_spelled play.now.marks ≡ true }
        ensures heard { IfOk result (Hears S.step (S.seen session.old) (S.seen session.new) self.old
            self.new sender (Plays (turn play.now))) }
        ensures tied { OnOk result (IsTied (S.seen session.new) self.new.member.mesh) }
        ensures session { OnErr result (session.new ≡ session.old) }
        ensures keeps { S.keeps session.old session.new }
        ensures accepted { OnOk result (unheard self.old sender (Plays (turn play.now)) ≡ None) }
        ensures refused { IfErr result
            (λ why. unheard self.old sender (Plays (turn play.now)) ≡ Some why) }
        ensures counted { IfErr result (λ why. self.new ≡ after_ignored sender why self.old) }
    {
        let packet = play.packet(sender).shortened();
        if let Some(why) = self.unplayed(&packet) {
            self.note_refused(sender);
            return Err(why);
        }
        match self.hear_turn(session, sender, play, &packet) {
            Some(taken) => Ok(Received::Play { sender, taken }),
            None => {
                self.note_refused(sender);
                Err(Ignored::Overstated)
            }
        }
    }

    /// Why a play isn't heard that says what it shouldn't.
    fn unplayed(&self, packet: &Packet) -> Option<Ignored>
        ensures { result ≡ unplayed self.now packet.now }
    {
        let mesh = self.member.mesh();
        if !is_inside(mesh.seat(), packet) {
            Some(Ignored::Outside)
        } else if !are_no_more(mesh.seat(), mesh.has(), packet) {
            Some(Ignored::Overstated)
        } else {
            None
        }
    }

    /// A turn is heard. None if it has words that its sender doesn't say that it has: nothing changed then.
    fn hear_turn<S: Networked>(
        &mut self,
        session: &mut S,
        sender: u8,
        play: &Play,
        packet: &Packet,
    ) -> Option<Taken>
        requires tied { IsTied (S.seen session.old) self.old.member.mesh }
        requires place { sender < MACHINE_LIMIT }
        requires listened { deaf_to self.old sender ≡ None }
        requires played { unplayed self.old (packet_of sender (turn play.now)) ≡ None }
        requires same { packet.now ≡ packet_of sender (turn play.now) }
        requires spelled { are_spelled play.now.marks ≡ true }
        ensures heard { IfSome result (HearsTurn S.step (S.seen session.old) (S.seen session.new)
            self.old self.new sender (turn play.now)) }
        ensures tied { IsTied (S.seen session.new) self.new.member.mesh }
        ensures had { is_some result ≡ is_had (packet_of sender (turn play.now)) }
        ensures unchanged { IsNone result → self.new ≡ self.old }
        ensures session { IsNone result → session.new ≡ session.old }
        ensures keeps { S.keeps session.old session.new }
    {
        let frame = session.frame();
        let taken = self.take_turn(session, sender, play, packet)?;
        let dropped = is_dropped(taken.heard);
        self.know_turn(sender, play, frame, taken.refusal.is_some(), dropped);
        self.dispute(sender, play);
        self.end_if(dropped);
        Some(taken)
    }

    /// Session and mesh hear a turn, and marks of words that are there then are known. None if it has words that its sender doesn't
    /// say that it has: nothing changed then.
    fn take_turn<S: Networked>(
        &mut self,
        session: &mut S,
        sender: u8,
        play: &Play,
        packet: &Packet,
    ) -> Option<Taken>
        requires tied { IsTied (S.seen session.old) self.old.member.mesh }
        requires listened { deaf_to self.old sender ≡ None }
        requires played { unplayed self.old (packet_of sender (turn play.now)) ≡ None }
        requires same { packet.now ≡ packet_of sender (turn play.now) }
        requires spelled { are_spelled play.now.marks ≡ true }
        ensures heard { IfSome result (HearsPacket S.step (beside (S.seen session.old) self.old)
            (beside (S.seen session.new) self.new) (packet_of sender (turn play.now))
            play.now.words.items (end_for self.old (turn play.now))) }
        ensures tied { IsTied (S.seen session.new) self.new.member.mesh }
        ensures rest { IsSome result → self.new ≡ record self.old {
          member = self.new.member;
          marks = marks_after self.old self.new.member (turn play.now);
        } }
        ensures limits { self.new.member.limits ≡ self.old.member.limits }
        ensures had { is_some result ≡ is_had (packet_of sender (turn play.now)) }
        ensures unchanged { IsNone result → self.new ≡ self.old }
        ensures session { IsNone result → session.new ≡ session.old }
        ensures keeps { S.keeps session.old session.new }
    {
        let told = self.told_with(&offered_marks(&play.head.offers, &play.marks));
        let end = self.end_among(&told);
        let taken = self.take_words(session, sender, play, packet, end)?;
        self.marks = self.kept_with(&told);
        Some(taken)
    }

    /// Session and mesh hear a turn's words of frames before an end. None if it has words that its sender doesn't say that it has:
    /// nothing changed then.
    fn take_words<S: Networked>(
        &mut self,
        session: &mut S,
        sender: u8,
        play: &Play,
        packet: &Packet,
        end: u32,
    ) -> Option<Taken>
        requires tied { IsTied (S.seen session.old) self.old.member.mesh }
        requires listened { deaf_to self.old sender ≡ None }
        requires played { unplayed self.old (packet_of sender (turn play.now)) ≡ None }
        requires same { packet.now ≡ packet_of sender (turn play.now) }
        ensures heard { IfSome result (HearsPacket S.step (beside (S.seen session.old) self.old)
            (beside (S.seen session.new) self.new) (packet_of sender (turn play.now))
            play.now.words.items end) }
        ensures tied { IsTied (S.seen session.new) self.new.member.mesh }
        ensures rest { self.new ≡ record self.old { member = self.new.member } }
        ensures limits { self.new.member.limits ≡ self.old.member.limits }
        ensures had { is_some result ≡ is_had (packet_of sender (turn play.now)) }
        ensures unchanged { IsNone result → self.new ≡ self.old }
        ensures session { IsNone result → session.new ≡ session.old }
        ensures keeps { S.keeps session.old session.new }
    {
        match self.member.hear(session, packet, &play.words, end) {
            Ok(taken) => Some(taken),
            Err(_) => None,
        }
    }

    /// What a turn tells of its sender is known, and told.
    fn know_turn(&mut self, sender: u8, play: &Play, frame: u32, refused: bool, dropped: bool)
        requires { sender < MACHINE_LIMIT }
        ensures { self.new ≡ knowing (turn play.now) sender
            (after_words refused dropped play.now.head frame (moment_of self.old)
            (contact_at self.old sender)) self.old }
    {
        let place = usize::from(sender);
        let before = self.contacts[place];
        let now = self.clock.moment;
        let contact = after_words(before, &play.head, frame, now, refused, dropped);
        self.contacts[place] = contact;
        self.events.heard(sender, &before, &contact);
        self.compare(sender, play.head.settled);
    }

    /// A bye is heard.
    fn hear_bye(&mut self, sender: u8, why: u8)
        requires place { sender < MACHINE_LIMIT }
        requires listened { deaf_to self.old sender ≡ None }
        ensures { HearsBye self.old self.new sender why }
    {
        let place = usize::from(sender);
        let mut contact = self.contacts[place];
        contact.heard_bye(why, self.clock.moment);
        self.contacts[place] = contact;
        let _ = self.member.leave(sender);
    }
}

/// Whether the sender of what was heard regards this machine as gone.
fn is_dropped(heard: Heard) -> bool
    ensures { result ≡ is_dropped heard }
{
    matches!(heard, Heard::Dropped)
}

/// Whether bytes are as many as a datagram has.
fn is_sized(bytes: &[u8]) -> bool
    ensures { result ≡ is_sized bytes.now }
{
    HEAD <= bytes.len() && bytes.len() <= DATAGRAM_LIMIT
}

/// Whether bytes greet, as a hello of a machine does, whoever sealed it.
fn greets(bytes: &[u8]) -> bool
    ensures { result ≡ greets bytes.now }
{
    is_sized(bytes)
        && byte_of(bytes, KIND_AT) == 0
        && usize::from(byte_of(bytes, SENDER_AT)) < MACHINE_LIMIT
}

/// The byte at a place, 0 if there is none.
fn byte_of(bytes: &[u8], place: usize) -> u8
    ensures { result ≡ byte_at bytes.now place }
{
    if place < bytes.len() { bytes[place] } else { 0 }
}

/// What bytes hold, if they are sealed by a key, and if no word has a mark where none is taken.
fn open_by(takes_marks: bool, sealer: &Sealer, bytes: &[u8]) -> Result<Body, Ignored>
    ensures opened { IsOpened result (open_by takes_marks (Some sealer.now) bytes.now) }
    ensures spelled { IfOk result (λ body. is_spelled_in (content body) ≡ true) }
{
    let Some(text) = sealer.unseal(bytes) else {
        return Err(Ignored::NotSealed);
    };
    match read(takes_marks, &text) {
        Ok(datagram) => Ok(datagram.body),
        Err(fault) => Err(Ignored::NoDatagram(fault)),
    }
}

/// What a text says, if no word has a mark where none is taken.
fn read(takes_marks: bool, text: &[u8]) -> Result<Datagram, WireFault>
    ensures read { Gives message result (read_text takes_marks text.now) }
    ensures spelled { IfOk result (λ d. is_spelled_in (content d.body) ≡ true) }
{
    if takes_marks {
        decode(text)
    } else {
        decode_unmarked(text)
    }
}

/// Whether what was ignored for this was sealed by its sender.
fn is_refusal(why: Ignored) -> bool
    ensures { result ≡ is_refusal why }
{
    matches!(
        why,
        Ignored::NoDatagram(_) | Ignored::Outside | Ignored::Overstated
    )
}

/// Whether a hello that was ignored for this is of no other machine of the match.
fn is_unknown(why: Ignored) -> bool
    ensures { result ≡ is_unknown why }
{
    matches!(
        why,
        Ignored::NotSealed | Ignored::NoDatagram(_) | Ignored::InvalidMachine | Ignored::OwnMachine
    )
}

/// What is known of a machine once its turn was heard, of which words may have been refused, and which may have called this one gone.
fn after_words(
    before: Contact,
    head: &Head,
    frame: u32,
    now: u32,
    refused: bool,
    dropped: bool,
) -> Contact
    ensures { result ≡ after_words refused dropped head.now frame now before }
{
    let mut contact = before;
    contact.play(head.number, head.clocks, frame, now);
    if dropped {
        contact.call_gone();
    }
    if refused {
        contact.refuse();
    }
    contact
}
