//! A viewer's line: what its two ends have in common.
ghost use Rattle.std.specs.Prelude.{◌≡◌, None, Some, option_map, true, IfErr, IfOk, IfSome, OnOk};
ghost use Rattle.roll_contact.specs.Contacts.{is_playing};
ghost use Rattle.roll_wire.specs.Spelling.{content, is_turn, is_whole, turn, Fits, Leaves, Plays};
ghost use Rattle.roll_viewer.specs.Lines.{after_bye, after_hello, after_play, after_refused, after_unread, came, clocks_at, farewell, greeting, hello_said, is_silent, key_for, message_of, mismatched, moment_at, opened, opened_line, play_said, said, silence, their_key, Gives, IsSealedFor, IsUnsealed};

use crate::refusal::LineRefusal;
use crate::settings::LineSettings;
use arrayvec::ArrayVec;
use roll_contact::seal::{say, unseal};
use roll_contact::{Clock, Contact, Key};
use roll_wire::{Body, Clocks, DATAGRAM_LIMIT, Head, Hello, Play, decode_unmarked};

/// Whom a viewer names as the sender: no machine of a match has this number.
pub(crate) const VIEWER: u8 = 255;
/// How many bytes each datagram has at least.
const HEADER: usize = 14;
/// Where its sender stands.
const SENDER_AT: usize = 12;
/// Where its kind stands.
const KIND_AT: usize = 13;
/// The kind of hellos.
const HELLO: u8 = 0;

/// What one end knows of the line.
#[derive(Clone, Copy, Debug)]
pub(crate) struct Line {
    /// What this end was told.
    pub(crate) settings: LineSettings,
    /// What it knows of the other end.
    pub(crate) contact: Contact,
    /// The program's clock, which never goes back here.
    pub(crate) clock: Clock,
    /// Whether one of the two has said bye.
    pub(crate) ended: bool,
}

impl Line {
    /// Nothing was heard.
    pub(crate) fn new(settings: LineSettings) -> Line
        ensures { result ≡ opened_line settings }
    {
        Line {
            settings,
            contact: Contact::new(),
            clock: Clock::new((settings.draw % (1 << 32)) as u32),
            ended: false,
        }
    }

    /// What bytes say, if this sender, the other end, sent them.
    #[tactic(auto, unfolding(crate::specs::Lines::opened))]
    pub(crate) fn open(&mut self, sender: u8, bytes: &[u8]) -> Result<Body, LineRefusal>
        ensures opened { Gives content result (opened self.old sender bytes.now) }
        ensures sealed { IfOk result (λ body. IsSealedFor self.old bytes.now (content body)) }
        ensures same { OnOk result (self.new ≡ self.old) }
        ensures rest { IfErr result (λ why. self.new ≡ after_unread why self.old) }
    {
        let text = self.unseal(sender, bytes)?;
        match decode_unmarked(&text) {
            Ok(datagram) => Ok(datagram.body),
            Err(fault) => {
                self.refuse();
                Err(LineRefusal::NoDatagram(fault))
            }
        }
    }

    /// The datagram that this sender sealed as these bytes.
    fn unseal(&self, sender: u8, bytes: &[u8]) -> Result<ArrayVec<u8, DATAGRAM_LIMIT>, LineRefusal>
        ensures came { Gives (λ text. text.items) result (came self.now sender bytes.now) }
        ensures sealed { IfOk result (λ text. IsUnsealed self.now bytes.now text.items) }
        ensures rest { IfErr result (λ why. self.now ≡ after_unread why self.now) }
    {
        if self.ended {
            return Err(LineRefusal::Ended);
        }
        if bytes.len() < HEADER || bytes.len() > DATAGRAM_LIMIT {
            return Err(LineRefusal::NotSealed);
        }
        if bytes[SENDER_AT] != sender {
            return Err(LineRefusal::Stranger);
        }
        let Some(key) = self.their_key(bytes[KIND_AT]) else {
            return Err(LineRefusal::NotSealed);
        };
        match unseal(bytes, &key) {
            Some(text) => Ok(text),
            None => Err(LineRefusal::NotSealed),
        }
    }

    /// By what the other end seals datagrams of a kind. None if its draw isn't believed, and they aren't hellos.
    fn their_key(&self, kind: u8) -> Option<Key>
        ensures { result ≡ their_key self.now kind }
    {
        if kind == HELLO {
            Some(Key::of_hellos(self.settings.number))
        } else if self.is_playing() {
            Some(Key {
                number: self.settings.number,
                from: self.contact.draw,
                to: self.settings.draw,
            })
        } else {
            None
        }
    }

    /// A hello is heard. One that says this opening's draw is refused if it means another match.
    pub(crate) fn hear_hello(&mut self, hello: &Hello, now: u32) -> Result<(), LineRefusal>
        ensures heard { self.new ≡ after_hello self.old hello.now now }
        ensures accepted { OnOk result (mismatched self.old hello.now ≡ None) }
        ensures refused { IfErr result (λ why. mismatched self.old hello.now ≡ Some why) }
    {
        let moment = self.clock.tick(now);
        let mismatch = self.settings.terms().mismatch(hello);
        self.contact
            .hello(&self.settings.opening(), mismatch, hello, moment);
        match mismatch {
            Some(field) if hello.echo == self.settings.draw => Err(LineRefusal::Mismatched(field)),
            _ => Ok(()),
        }
    }

    /// A play is heard, with clocks or without, by an end that is at a frame.
    pub(crate) fn hear_play(&mut self, head: &Head, frame: u32, now: u32)
        ensures { self.new ≡ after_play self.old head.now frame now }
    {
        let moment = self.clock.tick(now);
        self.contact.play(head.number, head.clocks, frame, moment);
    }

    /// Something that the other end sealed is refused.
    pub(crate) fn refuse(&mut self)
        ensures { self.new ≡ after_refused self.old }
    {
        self.contact.refuse();
    }

    /// One of the two says bye.
    pub(crate) fn end(&mut self)
        ensures { self.new ≡ after_bye self.old }
    {
        self.ended = true;
    }

    /// Whether the other end's draw is believed.
    fn is_playing(&self) -> bool
        ensures { result ≡ is_playing self.now.contact.stage }
    {
        self.contact.is_playing()
    }

    /// The moment of this line's clock when the program's own shows this.
    fn moment(&self, now: u32) -> u32
        ensures { result ≡ moment_at self.now now }
    {
        let mut clock = self.clock;
        clock.tick(now)
    }

    /// For how many milliseconds no new clock came back, if the other end's draw is believed.
    pub(crate) fn silence(&self, now: u32) -> u32
        ensures { result ≡ silence self.now now }
    {
        self.contact.unanswered_for(self.moment(now))
    }

    /// Whether the other end has been silent for too long.
    pub(crate) fn is_silent(&self, now: u32) -> bool
        ensures { result ≡ is_silent self.now now }
    {
        self.contact
            .is_silent(self.moment(now), self.settings.silent_after)
    }

    /// The bytes of this end's next hello.
    pub(crate) fn greet(&mut self, sender: u8, now: u32) -> ArrayVec<u8, DATAGRAM_LIMIT>
        ensures bytes { result.items ≡ said self.old sender (greeting self.old) }
        ensures fits { Fits (message_of self.old sender (greeting self.old)) }
        ensures said { self.new ≡ hello_said self.old now }
    {
        let hello = self
            .settings
            .terms()
            .hello(&self.settings.opening(), self.contact.hello_echo());
        let bytes = self.say(sender, Body::Hello(hello));
        self.clock.tick(now);
        self.contact.hello_sent();
        bytes
    }

    /// The clocks of the next play of an end that is at a frame, if it is to have some.
    pub(crate) fn clocks(&self, frame: u32, now: u32) -> Option<Clocks>
        ensures { result ≡ clocks_at self.now frame now }
    {
        let moment = self.moment(now);
        if !self.contact.wants_clocks(moment) {
            return None;
        }
        let mut clocks = self.contact.mine(frame, moment);
        clocks.heard_frame = frame;
        Some(clocks)
    }

    /// The bytes of a play that has the clocks that are to be told.
    pub(crate) fn play(&mut self, sender: u8, play: Play, now: u32) -> ArrayVec<u8, DATAGRAM_LIMIT>
        requires { is_turn (turn play) ≡ true }
        ensures bytes { result.items ≡ said self.old sender (Plays (turn play)) }
        ensures fits { Fits (message_of self.old sender (Plays (turn play))) }
        ensures said { self.new ≡ play_said self.old now }
    {
        let bytes = self.say(sender, Body::Play(play));
        let moment = self.clock.tick(now);
        self.contact.play_sent(moment);
        bytes
    }

    /// One of the two leaves: the bytes that say so, if the other end's draw is believed. The line ends in any case.
    pub(crate) fn bye(&mut self, sender: u8) -> Option<ArrayVec<u8, DATAGRAM_LIMIT>>
        ensures said { option_map (λ bytes. bytes.items) result ≡ farewell self.old sender }
        ensures fits { IfSome result (λ bytes. Fits (message_of self.old sender (Leaves 0))) }
        ensures ended { self.new ≡ after_bye self.old }
    {
        let bytes = if self.is_playing() {
            Some(self.say(sender, Body::Bye { why: 0 }))
        } else {
            None
        };
        self.end();
        bytes
    }

    /// By what this end seals a body.
    fn key_for(&self, body: &Body) -> Key
        ensures { result ≡ key_for self.now (content body.now) }
    {
        match body {
            Body::Hello(_) => Key::of_hellos(self.settings.number),
            _ => Key {
                number: self.settings.number,
                from: self.settings.draw,
                to: self.contact.draw,
            },
        }
    }

    /// The bytes by which one end says something.
    fn say(&self, sender: u8, body: Body) -> ArrayVec<u8, DATAGRAM_LIMIT>
        requires { is_whole (content body) ≡ true }
        ensures said { result.items ≡ said self.now sender (content body) }
        ensures fits { Fits (message_of self.now sender (content body)) }
    {
        say(&self.key_for(&body), sender, body)
    }
}
