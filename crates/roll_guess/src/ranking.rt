//! The guesses that are worth the most, in order.
ghost use Rattle.std.specs.Prelude.{◌≡◌, ◌<◌, ◌≤◌, ◌-◌, List, ℕ, length, take};
ghost use Rattle.std.specs.Bool.{OnFalse, OnTrue};
ghost use Rattle.roll_guess.specs.Guesses.{until_of, view_ahead, worth_of, AreOffered, HasNone, HasOne, IsCourse, IsPlace, IsRanking, Suits};
ghost use Rattle.roll_guess.specs.declared.limits.TheConstants.{GUESS_LIMIT};

use crate::limits::{GUESS_LIMIT, REACH, UNKNOWN_LIMIT};
use arrayvec::ArrayVec;
use roll_frame::PATH_LIMIT;

/// A guess, as a session takes it.
#[derive(Debug, Default, Drop)]
pub struct Guess {
    pub player: u8,
    /// The player's next words: the last of them is held on.
    pub words: ArrayVec<u32, PATH_LIMIT>,
    /// The frame to which it is to be run.
    pub until: u32,
    /// The chance that these words come, as a part of `CERTAIN`, times the frames that they save.
    pub worth: u32,
}

/// What a choice needs to know of a session.
#[derive(Clone, Copy, Debug)]
pub struct View {
    pub player: u8,
    /// How many words of the player are confirmed.
    pub from: u32,
    /// How many frames have no word of it yet, 16 at most.
    pub unknown: u8,
    pub settled: u32,
    /// The last frame to which the session takes guesses.
    pub reach: u32,
}

/// The guesses that are worth the most, in order.
pub type Ranking = ArrayVec<Guess, GUESS_LIMIT>;

impl View {
    /// A view of so many frames without a word, 16 at most, of no session.
    pub(crate) fn ahead(unknown: u32) -> View
        ensures { result ≡ view_ahead unknown }
    {
        View {
            player: 0,
            from: 0,
            unknown: unknown.min(UNKNOWN_LIMIT) as u8,
            settled: 0,
            reach: PATH_LIMIT as u32,
        }
    }

    /// The frame to which a guess of so many words is run: as far past its last change as a job
    /// goes.
    fn until(&self, words: u32) -> u32
        requires { self.now.settled < self.now.reach }
        ensures { result ≡ until_of self.now words }
    {
        let wanted = self.from.saturating_add(words).saturating_add(REACH - 1);
        wanted.clamp(self.settled + 1, self.reach)
    }

    /// How much words are worth that come with this chance.
    fn worth(&self, words: u32, chance: u32) -> u32
        ensures { result ≡ worth_of self.now words chance }
    {
        chance.saturating_mul(u32::from(self.unknown).saturating_sub(words) + 1)
    }

    /// The guess of words that come with this chance.
    pub(crate) fn guess(&self, words: ArrayVec<u32, PATH_LIMIT>, chance: u32) -> Guess
        requires reach { self.now.settled < self.now.reach }
        requires some { 1 ≤ length words.items }
        ensures suits { (worths : List ℕ → ℕ)
            → worths words.items ≡ worth_of self.now (length words.items) chance
            → Suits worths self.now result }
        ensures words { result.words.items ≡ words.items }
    {
        let count = words.len() as u32;
        Guess {
            player: self.player,
            words,
            until: self.until(count),
            worth: self.worth(count, chance),
        }
    }
}

/// The place of a guess that is worth so much: behind those that are worth as much.
fn place_of(ranking: &[Guess], worth: u32) -> usize
    ensures { IsPlace ranking.now worth result }
{
    let mut place = 0;
    for guess in ranking {
        if guess.worth < worth {
            return place;
        }
        place += 1;
    }
    place
}

/// Whether one of the guesses is of these words.
fn has_words(ranking: &[Guess], words: &[u32]) -> bool
    ensures one { OnTrue result (HasOne ranking.now words.now) }
    ensures none { OnFalse result (HasNone ranking.now words.now) }
{
    for guess in ranking {
        if guess.words.as_slice() == words {
            return true;
        }
    }
    false
}

/// Lets the last guess of a full ranking go.
fn make_room(ranking: &mut Ranking)
    ensures { ranking.new.items ≡ take (GUESS_LIMIT - 1) ranking.old.items }
{
    if ranking.is_full() {
        ranking.pop();
    }
}

/// Puts a guess in its place, unless there is one of the same words. From a full list the last one
/// goes, or none if this one would come after it.
pub(crate) fn offer(ranking: &mut Ranking, guess: Guess)
    ensures { (worths : List ℕ → ℕ) (view : View)
        → IsRanking worths view ranking.old.items → Suits worths view guess
        → AreOffered worths view (λ words. words ≡ guess.words.items)
        ranking.old.items ranking.new.items }
{
    let place = place_of(ranking.as_slice(), guess.worth);
    if place < GUESS_LIMIT && !has_words(ranking.as_slice(), guess.words.as_slice()) {
        make_room(ranking);
        ranking.insert(place, guess);
    }
}
