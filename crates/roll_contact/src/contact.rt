//! What this end knows of another.
ghost use Rattle.std.specs.Prelude.{◌≡◌};
ghost use Rattle.roll_contact.specs.Clocks.{difference};
ghost use Rattle.roll_contact.specs.Contacts.{after_clocks, after_hello, after_play, answered_later, are_clocks_due, are_newer, behind_of, believing, bye_heard, called_gone, clocks_for, confirming, counted, frame_after, greeted, heard, heard_later, heard_too, hello_echo, hello_sent, hushed, is_before, is_fresh, is_hushed, is_one_opening, is_playing, is_silent, is_unanswered, least_patience, measured, meeting, opened_contact, other_opening, passing, play_sent, refused, says_hello, silence, told, unanswered_for, wants_clocks};

use crate::clock::since;
use crate::terms::{CARRIES, Field};
use roll_wire::{Clocks, Hello};

/// The most frames that one machine is said to be behind another.
const BEHIND_LIMIT: i64 = 1_048_576;
/// The most milliseconds of a round trip: what is longer isn't one.
const ROUND_TRIP_LIMIT: u32 = 60_000;
/// In how many plays one at least has clocks.
const CLOCKS_EVERY: u32 = 16;
/// How often clocks go in the time after which a silent end is gone.
const CLOCKS_IN_PATIENCE: u32 = 16;
/// Who has been silent for so great a part of the patience is sent clocks in each play.
const PATIENCE_PARTS: u32 = 4;
/// So many clocks that weren't answered make a silence.
const UNANSWERED: u32 = 10;
/// In how many datagrams one is a hello, if one is owed while the match is played.
const HELLO_EVERY: u32 = 16;
/// Which of them.
const HELLO_AT: u32 = 8;
/// Moments that lie so far ahead lie behind.
const HALF: u32 = 1 << 31;

/// What an end says of itself in its hellos.
#[derive(Clone, Copy, Debug, PartialEq, Eq)]
pub struct Opening {
    /// 64 bits drawn for this opening alone, which aren't 0.
    pub draw: u64,
    /// After how many milliseconds of silence the other end is regarded as gone; 0: never.
    pub silent_after: u32,
    /// Whether it hands on datagrams of others, and has its own handed on.
    pub carries: bool,
}

/// How far this end and another have come to play with each other.
#[derive(Clone, Copy, Debug, PartialEq, Eq)]
pub enum Stage {
    /// Nothing was heard of it.
    Silent,
    /// It was heard. Whether it is there now, and hears this end, isn't known.
    Greeted,
    /// It has said this opening's draw, so its own draw is believed.
    Playing,
    /// It has said this opening's draw, and means another match: the first field that it has otherwise.
    Mismatched(Field),
}

/// The last clocks that were heard of an end.
#[derive(Clone, Copy, Debug)]
pub struct TheirClocks {
    /// The number of the play that had them.
    pub number: u32,
    /// Its frame.
    pub frame: u32,
    /// Its clock.
    pub clock: u32,
    /// When they were heard.
    pub heard_at: u32,
}

/// What this end knows of another. Moments are those of this end's `Clock`.
#[derive(Clone, Copy, Debug)]
pub struct Contact {
    /// How far the two have come.
    pub stage: Stage,
    /// The draw of the opening that is believed, 0 if none is.
    pub draw: u64,
    /// The draw that was heard last before one was believed, 0 if none was.
    pub echo: u64,
    /// Whether a hello is owed, since one came of an opening that isn't believed, though the two play.
    pub owes_hello: bool,
    /// Whether a play of the opening that is believed was heard.
    pub confirmed: bool,
    /// The draw of the opening that was begun in the place of the one that is believed, 0 if none was.
    pub restarted: u64,
    /// The field by which it was last found to mean another match.
    pub differs: Option<Field>,
    /// The time of silence that either end waits for, the lesser one; 0: neither waits.
    pub patience: u32,
    /// Whether both ends hand on datagrams of others.
    pub carries: bool,
    /// When it was heard last.
    pub heard_at: u32,
    /// Whether its silence was told, and it wasn't heard since.
    pub interrupted: bool,
    /// The newest clock of this end's own that came back.
    pub answered: u32,
    /// When it did; before the first, when the first play was heard, and before that, when the draw was believed.
    pub answered_at: u32,
    /// How many clocks were sent to it since.
    pub unanswered: u32,
    /// When the last clocks were sent to it.
    pub clocks_at: u32,
    /// How many plays may go to it until the next clocks.
    pub plays_left: u32,
    /// The last clocks that were heard of it.
    pub their_clocks: Option<TheirClocks>,
    /// How many frames this end was behind it as its clocks were heard.
    pub behind: i32,
    /// How many frames it says that it is behind this end.
    pub their_behind: i32,
    /// The milliseconds that a packet and its answer took, as last measured.
    pub round_trip: Option<u32>,
    /// How many packets were sent to it.
    pub sent: u32,
    /// How many packets of it were heard.
    pub received: u32,
    /// One more than the greatest number of a play of it that was heard, 0 before the first.
    pub after: u32,
    /// How many it had sent by its last clocks, and as many as were heard since.
    pub expected: u32,
    /// How many packets that it sealed were refused.
    pub refused: u32,
    /// How many plays of it called this machine gone.
    pub dropped: u32,
    /// Why it left, as its bye said; 0 before one was heard.
    pub bye: u8,
}

impl Contact {
    /// Nothing was heard of it, and nothing was sent to it.
    pub fn new() -> Contact
        ensures { result ≡ opened_contact }
    {
        Contact {
            stage: Stage::Silent,
            draw: 0,
            echo: 0,
            owes_hello: false,
            confirmed: false,
            restarted: 0,
            differs: None,
            patience: 0,
            carries: false,
            heard_at: 0,
            interrupted: false,
            answered: 0,
            answered_at: 0,
            unanswered: 0,
            clocks_at: 0,
            plays_left: 0,
            their_clocks: None,
            behind: 0,
            their_behind: 0,
            round_trip: None,
            sent: 0,
            received: 0,
            after: 0,
            expected: 0,
            refused: 0,
            dropped: 0,
            bye: 0,
        }
    }

    /// A hello was heard, which differs in a field or means the same match. Only one that says this opening's draw is
    /// believed, or told as a restart. Once it is believed, what both ends said decides whether they carry for each
    /// other, and how long they wait in a silence.
    #[tactic(auto, unfolding(crate::specs::Contacts::after_hello))]
    pub fn hello(&mut self, own: &Opening, mismatch: Option<Field>, hello: &Hello, now: u32)
        ensures { self.new ≡ after_hello own.now mismatch hello.now now self.old }
    {
        if !self.is_playing() {
            self.meet(own, mismatch, hello, now);
        } else if hello.draw != self.draw {
            self.hear_another(own, mismatch, hello, now);
        } else {
            self.heard(now);
            if hello.echo == own.draw {
                self.differs = mismatch;
            }
        }
    }

    /// A hello was heard of another opening than the one that is believed. If that one was never heard to play, and the other says this
    /// opening's draw, it takes its place.
    fn hear_another(&mut self, own: &Opening, mismatch: Option<Field>, hello: &Hello, now: u32)
        ensures { self.new ≡ other_opening own.now mismatch hello.now now self.old }
    {
        if hello.echo != own.draw {
            self.owes_hello |= hello.draw != self.restarted;
        } else if self.confirmed {
            if hello.draw != 0 {
                self.restarted = hello.draw;
            }
        } else {
            self.heard(now);
            self.judge(own, mismatch, hello, now);
        }
    }

    /// A hello was heard of an end with which the match isn't played yet. Only one that says this opening's draw is believed.
    fn meet(&mut self, own: &Opening, mismatch: Option<Field>, hello: &Hello, now: u32)
        ensures { self.new ≡ meeting own.now mismatch hello.now now self.old }
    {
        self.heard(now);
        self.echo = hello.draw;
        if hello.echo == own.draw {
            self.judge(own, mismatch, hello, now);
        } else if matches!(self.stage, Stage::Silent) {
            self.stage = Stage::Greeted;
        }
    }

    /// An end that said this opening's draw means the same match, or doesn't.
    fn judge(&mut self, own: &Opening, mismatch: Option<Field>, hello: &Hello, now: u32)
        ensures { self.new ≡ greeted own.now mismatch hello.now now self.old }
    {
        self.differs = mismatch;
        match mismatch {
            Some(field) => self.stage = Stage::Mismatched(field),
            None => self.believe(own, hello, now),
        }
    }

    /// The draw of a hello is believed from now on.
    fn believe(&mut self, own: &Opening, hello: &Hello, now: u32)
        ensures { self.new ≡ believing own.now hello.now now self.old }
    {
        self.stage = Stage::Playing;
        self.draw = hello.draw;
        self.patience = least_patience(own.silent_after, hello.patience);
        self.carries = own.carries && hello.abilities % 2 == CARRIES;
        self.answered = now.wrapping_sub(1);
        self.answered_at = now;
        self.unanswered = 0;
    }

    /// A play of a number was heard, with clocks or without, while this end is at a frame.
    #[tactic(auto, unfolding(crate::specs::Contacts::after_play))]
    pub fn play(&mut self, number: u32, clocks: Option<Clocks>, frame: u32, now: u32)
        ensures { self.new ≡ after_play number clocks frame now self.old }
    {
        self.heard(now);
        self.confirm(now);
        self.pass(number);
        match clocks {
            Some(clocks) if self.are_newer(number) => self.clocks(number, &clocks, frame, now),
            _ => {}
        }
    }

    /// If a play is newer than all that were heard, others are only newer if they come after it.
    fn pass(&mut self, number: u32)
        ensures { self.new ≡ passing number self.old }
    {
        if number >= self.after {
            self.after = number.saturating_add(1);
        }
    }

    /// A play of the opening that is believed was heard: from the first one on it believes this one too, and its silence counts.
    fn confirm(&mut self, now: u32)
        ensures { self.new ≡ confirming now self.old }
    {
        if !self.confirmed {
            self.confirmed = true;
            self.answered_at = now;
            self.unanswered = 0;
        }
    }

    /// Whether the match is played with it.
    pub fn is_playing(&self) -> bool
        ensures { result ≡ is_playing self.now.stage }
    {
        matches!(self.stage, Stage::Playing)
    }

    /// Whether the clocks of a play are later than the last that were heard.
    fn are_newer(&self, number: u32) -> bool
        ensures { result ≡ are_newer self.now.their_clocks number }
    {
        match self.their_clocks {
            None => true,
            Some(theirs) => theirs.number < number,
        }
    }

    /// The clocks of a play were heard, which are newer than all before.
    fn clocks(&mut self, number: u32, clocks: &Clocks, frame: u32, now: u32)
        ensures { self.new ≡ after_clocks number clocks.now frame now self.old }
    {
        self.answer(clocks.heard_clock, now);
        self.their_clocks = Some(TheirClocks {
            number,
            frame: clocks.frame,
            clock: clocks.clock,
            heard_at: now,
        });
        self.behind = behind(clocks.frame, frame);
        self.their_behind = behind(clocks.heard_frame, clocks.frame);
        self.round_trip = measured(clocks, now).or(self.round_trip);
        self.expected = number.saturating_add(1);
    }

    /// A clock of this end's own came back. It ends a silence if it is newer than all that came back before.
    fn answer(&mut self, clock: u32, now: u32)
        ensures { self.new ≡ told clock now self.old }
    {
        if is_fresh(clock, self.answered, now) {
            self.answered = clock;
            self.answered_at = now;
            self.unanswered = 0;
        }
    }

    /// The clocks to send to it, while this end is at a frame.
    pub fn mine(&self, frame: u32, now: u32) -> Clocks
        ensures { result ≡ clocks_for self.now frame now }
    {
        let (heard_clock, held) = match self.their_clocks {
            Some(theirs) => (theirs.clock, since(now, theirs.heard_at)),
            None => (0, 0),
        };
        Clocks {
            frame,
            heard_frame: frame_after(frame, self.behind),
            clock: now.max(1),
            heard_clock,
            held,
        }
    }

    /// Whether it is time for clocks, whether it answers or not.
    fn are_clocks_due(&self, now: u32) -> bool
        ensures { result ≡ are_clocks_due self.now now }
    {
        self.plays_left == 0
            || self.patience > 0 && since(now, self.clocks_at) >= self.patience / CLOCKS_IN_PATIENCE
    }

    /// Whether the next play to it has clocks: it is time for them, or it has been silent for more than a quarter of the patience.
    pub fn wants_clocks(&self, now: u32) -> bool
        ensures { result ≡ wants_clocks self.now now }
    {
        self.are_clocks_due(now)
            || self.patience > 0 && self.unanswered_for(now) > self.patience / PATIENCE_PARTS
    }

    /// The draw that hellos to it say back: the one that is believed, or else the one that was heard last.
    pub fn hello_echo(&self) -> u64
        ensures { result ≡ hello_echo self.now }
    {
        if self.is_playing() {
            self.draw
        } else {
            self.echo
        }
    }

    /// Whether a hello goes to it next, and no play.
    pub fn says_hello(&self) -> bool
        ensures { result ≡ says_hello self.now }
    {
        !self.is_playing()
            || !self.confirmed && self.sent % 2 == 0
            || self.owes_hello && self.sent % HELLO_EVERY == HELLO_AT
    }

    /// One more packet was sent to it.
    fn count(&mut self)
        ensures { self.new ≡ counted self.old }
    {
        self.sent = self.sent.saturating_add(1);
    }

    /// A hello was sent to it.
    pub fn hello_sent(&mut self)
        ensures { self.new ≡ hello_sent self.old }
    {
        self.owes_hello = false;
        self.count();
    }

    /// A play was sent to it, with clocks if it wanted them. Of these only those that were due count as unanswered, so that
    /// `UNANSWERED` of them take their time.
    pub fn play_sent(&mut self, now: u32)
        ensures { self.new ≡ play_sent now self.old }
    {
        if self.are_clocks_due(now) {
            self.unanswered = self.unanswered.saturating_add(1);
            self.clocks_at = now;
            self.plays_left = CLOCKS_EVERY - 1;
        } else {
            self.plays_left -= 1;
        }
        self.count();
    }

    /// For how many milliseconds it wasn't heard at all, if the match is played with it.
    pub fn silence(&self, now: u32) -> u32
        ensures { result ≡ silence self.now now }
    {
        if self.is_playing() {
            since(now, self.heard_at)
        } else {
            0
        }
    }

    /// How many milliseconds ago the newest clock of this end's own came back, if the match is played with it: what is only copied
    /// doesn't change that.
    pub fn unanswered_for(&self, now: u32) -> u32
        ensures { result ≡ unanswered_for self.now now }
    {
        if self.is_playing() {
            since(now, self.answered_at)
        } else {
            0
        }
    }

    /// Whether it has been silent for so long that it is gone; 0 is never, and so it is before a play of it was heard.
    pub fn is_silent(&self, now: u32, silent_after: u32) -> bool
        ensures { result ≡ is_silent self.now now silent_after }
    {
        self.confirmed && self.is_unanswered(now, silent_after)
    }

    /// Whether no new clock came back for longer than that, though enough clocks were sent since; 0 is never.
    fn is_unanswered(&self, now: u32, silent_after: u32) -> bool
        ensures { result ≡ is_unanswered self.now now silent_after }
    {
        silent_after > 0 && self.unanswered_for(now) > silent_after && self.unanswered >= UNANSWERED
    }

    /// Whether its silence is to be told now, for it has been silent for too long, and that wasn't told yet; 0 is never.
    pub fn hush(&mut self, now: u32, notify_after: u32) -> bool
        ensures told { result ≡ is_hushed self.old now notify_after }
        ensures contact { self.new ≡ hushed self.old now notify_after }
    {
        let hushed = notify_after > 0 && !self.interrupted && self.silence(now) > notify_after;
        if hushed {
            self.interrupted = true;
        }
        hushed
    }

    /// A packet of it was heard.
    pub fn heard(&mut self, now: u32)
        ensures { self.new ≡ heard now self.old }
    {
        self.heard_at = now;
        self.interrupted = false;
        self.received = self.received.saturating_add(1);
        self.expected = self.expected.saturating_add(1);
    }

    /// What another network of this same machine knows of it, at this moment: where it was heard later there, it is heard here as of
    /// then; and where a clock of this end's own came back later there, that came back here too. Nothing happens unless both play with
    /// the same opening of it.
    pub fn hear_too(&mut self, other: &Contact, now: u32)
        ensures { self.new ≡ heard_too other.now now self.old }
    {
        if self.is_one_opening(other) {
            self.hear_later(other, now);
            self.answer_later(other, now);
        }
    }

    /// Whether both play with the same opening of an end.
    fn is_one_opening(&self, other: &Contact) -> bool
        ensures { result ≡ is_one_opening self.now other.now }
    {
        self.is_playing() && other.is_playing() && self.draw == other.draw
    }

    /// It was heard when the other network heard it, if that was later.
    fn hear_later(&mut self, other: &Contact, now: u32)
        ensures { self.new ≡ heard_later other.now now self.old }
    {
        if since(now, other.heard_at) < since(now, self.heard_at) {
            self.heard_at = other.heard_at;
            self.interrupted = false;
        }
    }

    /// A clock came back when one came back to the other network, if that was later.
    fn answer_later(&mut self, other: &Contact, now: u32)
        ensures { self.new ≡ answered_later other.now now self.old }
    {
        if since(now, other.answered_at) < since(now, self.answered_at) {
            self.answered = other.answered;
            self.answered_at = other.answered_at;
            self.unanswered = other.unanswered;
        }
    }

    /// A packet that it sealed was refused, or words in it.
    pub fn refuse(&mut self)
        ensures { self.new ≡ refused self.old }
    {
        self.refused = self.refused.saturating_add(1);
    }

    /// A play of it called this machine gone.
    pub fn call_gone(&mut self)
        ensures { self.new ≡ called_gone self.old }
    {
        self.dropped = self.dropped.saturating_add(1);
    }

    /// Its bye was heard, which says why it left.
    pub fn heard_bye(&mut self, why: u8, now: u32)
        ensures { self.new ≡ bye_heard why now self.old }
    {
        self.heard(now);
        self.bye = why;
    }
}

/// The lesser of two times of silence, where 0 is for ever.
fn least_patience(own: u32, theirs: u32) -> u32
    ensures { result ≡ least_patience own theirs }
{
    match (own, theirs) {
        (0, other) | (other, 0) => other,
        (own, theirs) => own.min(theirs),
    }
}

/// Whether a moment lies before another, by less than 2^31.
fn is_before(earlier: u32, later: u32) -> bool
    ensures { result ≡ is_before earlier later }
{
    earlier != later && later.wrapping_sub(earlier) < HALF
}

/// Whether a clock of one's own that came back is newer than the newest before, and not from the future.
fn is_fresh(clock: u32, newest: u32, now: u32) -> bool
    ensures { result ≡ is_fresh clock newest now }
{
    clock != 0 && is_before(newest, clock) && !is_before(now, clock)
}

/// How many frames one who is at a frame is behind another.
fn behind(theirs: u32, frame: u32) -> i32
    ensures { result ≡ behind_of theirs frame }
{
    (i64::from(theirs) - i64::from(frame)).clamp(-BEHIND_LIMIT, BEHIND_LIMIT) as i32
}

/// The frame that is so many after another, or the nearest one.
fn frame_after(frame: u32, more: i32) -> u32
    ensures { result ≡ frame_after frame more }
{
    (i64::from(frame) + i64::from(more)).clamp(0, i64::from(u32::MAX)) as u32
}

/// The round trip that clocks show, if they show one.
fn measured(clocks: &Clocks, now: u32) -> Option<u32>
    ensures { result ≡ measured clocks.now now }
{
    let round_trip = now
        .wrapping_sub(clocks.heard_clock)
        .wrapping_sub(clocks.held);
    if clocks.heard_clock != 0 && round_trip <= ROUND_TRIP_LIMIT {
        Some(round_trip)
    } else {
        None
    }
}
