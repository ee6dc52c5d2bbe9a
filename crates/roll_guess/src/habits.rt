//! What was seen of one player.
ghost use Rattle.std.specs.Prelude.{◌≡◌, ◌+◌, ◌≤◌, ◌<◌, ◌==◌, ◌&&◌, count_by, length};
ghost use Rattle.roll_guess.specs.Habits.{age_class, chance_of, first_habits, held_after, known_after, noted, portion, share_of, slid, tallied, turning, turning_of, turns_after, weight_of, weights_of};
ghost use Rattle.roll_guess.specs.Players.{foreseen};
ghost use Rattle.roll_guess.specs.declared.limits.TheConstants.{AGE_CLASSES, KNOWN_LIMIT, TURN_LIMIT};

use crate::limits::{AGE_CLASSES, CERTAIN, KNOWN_LIMIT, PLAIN_WEIGHT, TURN_LIMIT, TURN_WEIGHT};
use arrayvec::ArrayVec;

/// A word, and for how many frames it was held by now.
#[derive(Clone, Copy, Debug, Default)]
pub struct Held {
    pub word: u32,
    pub age: u32,
}

impl Held {
    /// What is held once the next word came.
    pub(crate) fn then(self, word: u32) -> Held
        ensures { result ≡ held_after self word }
    {
        if word == self.word {
            Held {
                word,
                age: self.age.saturating_add(1),
            }
        } else {
            Held { word, age: 1 }
        }
    }
}

/// How often a held word was seen, and how often another one followed it. Both fade: they are halved once one is 255.
#[derive(Clone, Copy, Debug, Default)]
pub struct Tally {
    pub seen: u8,
    pub turned: u8,
}

impl Tally {
    /// The tally after one more.
    fn more(self, turned: bool) -> Tally
        ensures { result ≡ tallied self turned }
    {
        let Tally { seen, turned: old } = if self.seen == u8::MAX || self.turned == u8::MAX {
            Tally {
                seen: self.seen / 2,
                turned: self.turned / 2,
            }
        } else {
            self
        };
        Tally {
            seen: seen + 1,
            turned: old + u8::from(turned),
        }
    }

    /// The chance of a change, by this tally.
    fn turning(self) -> u32
        ensures { result ≡ turning self }
    {
        ((u32::from(self.turned) + 1) * CERTAIN / (u32::from(self.seen) + 8)).min(CERTAIN)
    }
}

/// A change: a word, and the next one, which is another.
#[derive(Clone, Copy, Debug, Default)]
pub struct Turn {
    pub from: u32,
    pub to: u32,
}

/// What was seen of one player by now.
#[derive(Debug, Drop)]
pub struct Habits {
    /// What the player holds: at first 0, as a session predicts.
    pub held: Held,
    /// How often words change, by how long they were held.
    pub tallies: [Tally; AGE_CLASSES],
    /// The last changes, the oldest first.
    pub turns: ArrayVec<Turn, TURN_LIMIT>,
    /// The words that came last, or are likely, no two alike.
    pub known: ArrayVec<u32, KNOWN_LIMIT>,
}

/// The class of an age.
fn age_class(age: u32) -> usize
    ensures class { result ≡ age_class age }
    ensures within { result < AGE_CLASSES }
{
    if age < 4 {
        0
    } else if age < 16 {
        1
    } else {
        2
    }
}

/// A part of a chance.
pub(crate) fn portion(chance: u32, of: u32) -> u32
    ensures { result ≡ portion chance of }
{
    chance.saturating_mul(of) / CERTAIN
}

/// Appends a word. In a full list it takes the place of the oldest.
fn slide_word(words: &mut ArrayVec<u32, KNOWN_LIMIT>, word: u32)
    ensures { words.new.items ≡ slid KNOWN_LIMIT words.old.items word }
{
    if words.is_full() {
        words.remove(0);
    }
    words.push(word);
}

/// Appends a change. In a full list it takes the place of the oldest.
fn slide_turn(turns: &mut ArrayVec<Turn, TURN_LIMIT>, turn: Turn)
    ensures { turns.new.items ≡ slid TURN_LIMIT turns.old.items turn }
{
    if turns.is_full() {
        turns.remove(0);
    }
    turns.push(turn);
}

/// How many changes are to this word.
fn turns_to(turns: &[Turn], to: u32) -> usize
    ensures count { result ≡ count_by (λ turn. turn.to == to) turns.now }
    ensures few { result ≤ length turns.now }
{
    turns.iter().filter(|turn| turn.to == to).count()
}

/// How many changes are from this word.
fn turns_from(turns: &[Turn], from: u32) -> usize
    ensures count { result ≡ count_by (λ turn. turn.from == from) turns.now }
    ensures few { result ≤ length turns.now }
{
    turns.iter().filter(|turn| turn.from == from).count()
}

/// How many changes are from this word to that one.
fn turns_between(turns: &[Turn], from: u32, to: u32) -> usize
    ensures count { result ≡ count_by (λ turn. (turn.from == from) && (turn.to == to)) turns.now }
    ensures few { result ≤ length turns.now }
{
    turns
        .iter()
        .filter(|turn| turn.from == from && turn.to == to)
        .count()
}

impl Habits {
    /// Nothing was seen yet. The words are those that are likely, at most 8 of them count; 0 is always one.
    pub fn new(likely: &[u32]) -> Habits
        ensures { result ≡ first_habits likely.now }
    {
        let mut habits = Habits {
            held: Held::default(),
            tallies: [Tally::default(); AGE_CLASSES],
            turns: ArrayVec::new(),
            known: ArrayVec::new(),
        };
        habits.know(0);
        for word in likely {
            habits.know(*word);
        }
        habits
    }

    /// Remembers a word, if it isn't known.
    pub(crate) fn know(&mut self, word: u32)
        ensures { self.new ≡ record self.old {
          known = record { items = known_after self.old.known.items word };
        } }
    {
        if !self.known.contains(&word) {
            slide_word(&mut self.known, word);
        }
    }

    /// Notes the player's next confirmed word. Tell each once, in the order of their frames.
    pub fn note(&mut self, word: u32)
        ensures { self.new ≡ noted self.old word }
    {
        let Held { word: last, age } = self.held;
        let class = age_class(age);
        self.tallies[class] = self.tallies[class].more(word != last);
        if word != last {
            slide_turn(
                &mut self.turns,
                Turn {
                    from: last,
                    to: word,
                },
            );
        }
        self.held = self.held.then(word);
        self.know(word);
    }

    /// The chance that a word changes which was held for so many frames: like all chances a part of `CERTAIN`.
    pub fn turning(&self, age: u32) -> u32
        ensures { result ≡ turning_of self.now age }
    {
        self.tallies[age_class(age)].turning()
    }

    /// The weight of a change from one word to another among all changes.
    fn weight(&self, from: u32, to: u32) -> usize
        ensures weight { result ≡ weight_of self.now from to }
        ensures small { result < 100 }
    {
        let turns = self.turns.as_slice();
        PLAIN_WEIGHT + turns_to(turns, to) + TURN_WEIGHT * turns_between(turns, from, to)
    }

    /// The weight of all changes from a word.
    fn weights(&self, from: u32) -> usize
        ensures weights { result ≡ weights_of self.now from }
        ensures some { 1 ≤ result }
        ensures small { result < 200 }
    {
        let turns = self.turns.as_slice();
        KNOWN_LIMIT * PLAIN_WEIGHT + turns.len() + TURN_WEIGHT * turns_from(turns, from)
    }

    /// The chance that a change from this word is one to that word.
    pub fn share(&self, from: u32, to: u32) -> u32
        ensures { result ≡ share_of self.now from to }
    {
        (self.weight(from, to) as u32) * CERTAIN / (self.weights(from) as u32)
    }

    /// The chance that this word comes next, where one is held.
    pub fn chance(&self, held: Held, word: u32) -> u32
        ensures { result ≡ chance_of self.now held word }
    {
        let turning = self.turning(held.age);
        if word == held.word {
            CERTAIN.saturating_sub(turning)
        } else {
            portion(turning, self.share(held.word, word))
        }
    }

    /// The chance that the guesses gave a word that came: none if it wasn't known.
    pub(crate) fn foreseen(&self, word: u32) -> u32
        ensures { result ≡ foreseen self.now word }
    {
        if self.known.contains(&word) {
            self.chance(self.held, word)
        } else {
            0
        }
    }
}
