//! Words that are held back, and for how many turns.
ghost use Rattle.std.specs.Prelude.{◌≡◌, ◌⊎◌, ◌≤◌, [], drop, is_none, length, min, nat_lt, take, true, IfErr, IfOk, IfSome, IsFalse, IsTrue, OnErr, OnOk};
ghost use Rattle.roll_relay.specs.Passing.{Does, Hand, Turn};
ghost use Rattle.roll_relay.specs.Pressed.{is_pressed, RefusesNext, TakesNext};
ghost use Rattle.roll_relay.specs.Told.{are_next, roomier, told, IsHeldFault};
ghost use Rattle.roll_relay.specs.Turns.{after_turn, due, lessened};

use crate::fault::HeldFault;
use crate::front::stands_next;
use crate::words::{make_room, tell};
use arrayvec::ArrayVec;
use roll_session::{RemoteWord, Settling};

/// The most words that are held back. If one more comes, all are handed over.
pub const HELD_LIMIT: usize = 64;

/// The most turns for which a word can be held back.
pub const TURN_LIMIT: usize = 8;

pub(crate) type Waiting = ArrayVec<RemoteWord, HELD_LIMIT>;

/// Words of others that came, and that a session isn't told yet: meanwhile another thread can run their frames, by a guess that is
/// right. The session's program asks which wait, and hands them over once their frames are there.
///
/// A program makes a `turn` of it in each turn of its main loop: so a word is held back for so many turns at most.
/// Whatever comes meanwhile, either all words that wait are handed over, or each goes on to wait, and has waited for as
/// long as before.
#[derive(Debug, Drop)]
pub struct Held {
    pub(crate) words: Waiting,
    pub(crate) waited: ArrayVec<usize, TURN_LIMIT>,
    pub(crate) turns: usize,
}

impl Held {
    /// Nothing waits, and what will come does for so many turns at most: for 0, no word ever waits. None if they are more than 8.
    pub fn new(turns: u8) -> Option<Held>
        ensures none { IfSome result (λ held. (held.words.items ≡ []) × (held.waited.items ≡ [])) }
        ensures turns { IfSome result (λ held. held.turns ≡ turns) }
        ensures refused { is_none result ≡ nat_lt TURN_LIMIT turns }
    {
        if usize::from(turns) > TURN_LIMIT {
            return None;
        }
        Some(Held {
            words: ArrayVec::new(),
            waited: ArrayVec::new(),
            turns: usize::from(turns),
        })
    }

    /// For how many turns a word waits at most.
    pub fn turns(&self) -> usize
        ensures { result ≡ self.now.turns }
    {
        self.turns
    }

    /// The words that wait, in the order in which they came.
    pub fn waiting(&self) -> &[RemoteWord]
        ensures { result.now ≡ self.now.words.items }
    {
        self.words.as_slice()
    }

    /// Whether the words should be handed over now: some wait, and once the session has come to its next frame, it would refuse a
    /// local word for its prediction threshold (code 4), unless it is told more.
    #[tactic(auto, using(crate::proofs::Pressed::refuses_next, crate::proofs::Pressed::takes_next))]
    pub fn is_pressed<S: Settling>(&self, session: &S) -> bool
        ensures pressed { result ≡ is_pressed (S.seen session.now) self.now.words.items }
        ensures refused { IsTrue result → RefusesNext (S.seen session.now) }
        ensures taken { IsFalse result → (self.now.words.items ≡ [])
            ⊎ TakesNext (S.seen session.now) }
    {
        !self.words.is_empty() && stands_next(session)
    }

    /// Hands the first so many words that wait over to their session, or all if there are fewer: it hears them as they came.
    ///
    /// # Errors
    ///
    /// `OtherSession` if they aren't the session's next words; `LogFull` or `NoMemory` if there is no room for all that wait. Nothing
    /// is changed then.
    pub fn hand_over<S: Settling>(&mut self, session: &mut S, count: usize) -> Result<(), HeldFault>
        ensures handed { OnOk result (S.seen session.new
            ≡ told (roomier (length self.old.words.items) (S.seen session.old))
            (take count self.old.words.items)) }
        ensures rest { OnOk result (self.new.words.items ≡ drop count self.old.words.items) }
        ensures waited { OnOk result (self.new.waited.items
            ≡ lessened (min count (length self.old.words.items)) self.old.waited.items) }
        ensures turns { self.new.turns ≡ self.old.turns }
        ensures hands { OnOk result (Does (Hand count)
            (record { seen = S.seen session.old; held = self.old })
            (record { seen = S.seen session.new; held = self.new })) }
        ensures accepted { OnOk result (are_next (S.seen session.old) self.old.words.items ≡ true) }
        ensures refused { IfErr result (IsHeldFault (S.seen session.old) self.old.words.items) }
        ensures session { OnErr result (session.new ≡ session.old) }
        ensures unchanged { OnErr result (self.new ≡ self.old) }
        ensures keeps { S.keeps session.old session.new }
    {
        match make_room(session, &self.words) {
            Ok(()) => {
                let count = count.min(self.words.len());
                tell(session, &self.words[..count]);
                self.words = rest_of(&self.words, count);
                self.waited = less(&self.waited, count);
                Ok(())
            }
            Err(why) => Err(why),
        }
    }

    /// A turn of the program's main loop is over: the words that have waited for as many turns as they may are handed over. Says how
    /// many they were.
    ///
    /// # Errors
    ///
    /// As `hand_over`. Nothing is changed then, and the next turn tries it again.
    pub fn turn<S: Settling>(&mut self, session: &mut S) -> Result<usize, HeldFault>
        ensures due { IfOk result (λ count. count ≡ min (length self.old.words.items)
            (due self.old.turns (after_turn (length self.old.words.items) self.old.waited.items))) }
        ensures few { IfOk result (λ count. count ≤ HELD_LIMIT) }
        ensures turned { OnOk result (Does Turn
            (record { seen = S.seen session.old; held = self.old })
            (record { seen = S.seen session.new; held = self.new })) }
        ensures handed { IfOk result (λ count. S.seen session.new
            ≡ told (roomier (length self.old.words.items) (S.seen session.old))
            (take count self.old.words.items)) }
        ensures rest { IfOk result
            (λ count. self.new.words.items ≡ drop count self.old.words.items) }
        ensures waited { IfOk result (λ count. self.new.waited.items
            ≡ lessened count (after_turn (length self.old.words.items) self.old.waited.items)) }
        ensures turns { self.new.turns ≡ self.old.turns }
        ensures refused { IfErr result (IsHeldFault (S.seen session.old) self.old.words.items) }
        ensures session { OnErr result (session.new ≡ session.old) }
        ensures unchanged { OnErr result (self.new ≡ self.old) }
        ensures keeps { S.keeps session.old session.new }
    {
        let waited = one_turn_more(&self.waited, self.words.len());
        let due = self.words.len().min(due_of(&waited, self.turns));
        match self.hand_over(session, due) {
            Ok(()) => {
                self.waited = less(&waited, due);
                Ok(due)
            }
            Err(why) => Err(why),
        }
    }
}

/// Words but the first so many.
fn rest_of(words: &Waiting, count: usize) -> Waiting
    requires { count ≤ length words.now.items }
    ensures { result.items ≡ drop count words.now.items }
{
    let mut rest = ArrayVec::new();
    rest.try_extend_from_slice(&words[count..]).unwrap();
    rest
}

/// How many of the first words have waited one turn, two turns and so on, once a turn is over in which so many wait.
fn one_turn_more(waited: &ArrayVec<usize, TURN_LIMIT>, words: usize) -> ArrayVec<usize, TURN_LIMIT>
    ensures { result.items ≡ after_turn words waited.now.items }
{
    let mut more = ArrayVec::new();
    more.push(words);
    let known = waited.len().min(TURN_LIMIT - 1);
    more.try_extend_from_slice(&waited[..known]).unwrap();
    more
}

/// How many have waited for so many turns.
fn due_of(waited: &ArrayVec<usize, TURN_LIMIT>, turns: usize) -> usize
    ensures { result ≡ due turns waited.now.items }
{
    match waited.get(turns.saturating_sub(1)) {
        Some(count) => *count,
        None => 0,
    }
}

/// What is left of these counts without the first so many words.
fn less(waited: &ArrayVec<usize, TURN_LIMIT>, count: usize) -> ArrayVec<usize, TURN_LIMIT>
    ensures { result.items ≡ lessened count waited.now.items }
{
    let mut left = ArrayVec::new();
    for all in waited.as_slice() {
        left.push(all.saturating_sub(count));
    }
    left
}
