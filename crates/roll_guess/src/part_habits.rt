//! What was seen of one player, by parts of its words.
ghost use Rattle.std.specs.Prelude.{◌≡◌, map};
ghost use Rattle.roll_guess.specs.Parts.{chance_by_parts, changed, first_part, first_parts, part_chance, part_noted, parts_noted};
ghost use Rattle.roll_guess.specs.Players.{foreseen_by_parts};
ghost use Rattle.roll_guess.specs.declared.limits.TheConstants.{PART_LIMIT};

use crate::habits::{Habits, Held, portion};
use crate::limits::{ALL_PARTS, CERTAIN};
use crate::parts::WordParts;
use arrayvec::ArrayVec;

/// Bits that belong together, and what was seen of them, as if they were the word.
#[derive(Debug, Drop)]
pub struct Part {
    pub mask: u32,
    pub habits: Habits,
}

impl Default for Part {
    /// No bits.
    fn default() -> Part {
        Part::new(0, &[])
    }
}

impl Part {
    /// Nothing was seen yet.
    fn new(mask: u32, likely: &[u32]) -> Part
        ensures { result ≡ first_part likely.now mask }
    {
        let mut habits = Habits::new(&[]);
        for word in likely {
            habits.know(*word & mask);
        }
        Part { mask, habits }
    }

    /// The chance that the part comes next as it is in a word, after it was held for some frames
    /// more.
    fn chance(&self, more: u32, word: u32) -> u32
        ensures { result ≡ part_chance self.now more word }
    {
        let Held { word: held, age } = self.habits.held;
        let held = Held {
            word: held,
            age: age.saturating_add(more),
        };
        self.habits.chance(held, word & self.mask)
    }

    /// The word with another value of the part.
    pub(crate) fn changed(&self, word: u32, value: u32) -> u32
        ensures { result ≡ changed self.now word value }
    {
        (word & !self.mask) | value
    }
}

/// What was seen of one player by now, by parts of its words.
#[derive(Debug, Drop)]
pub struct PartHabits {
    /// What the player holds: at first 0, as a session predicts.
    pub held: u32,
    /// The parts that the game named, and one of the other bits, if there are any.
    pub parts: ArrayVec<Part, ALL_PARTS>,
}

impl PartHabits {
    /// Nothing was seen yet. The words are those that are likely: of each part its values in them.
    pub fn new(parts: &WordParts, likely: &[u32]) -> PartHabits
        ensures { result ≡ first_parts parts.now.masks.items likely.now }
    {
        let mut seen = ArrayVec::new();
        for mask in parts.masks() {
            seen.push(Part::new(*mask, likely));
        }
        let rest = parts.rest();
        if rest != 0 {
            seen.push(Part::new(rest, likely));
        }
        PartHabits {
            held: 0,
            parts: seen,
        }
    }

    /// Notes the player's next confirmed word. Tell each once, in the order of their frames.
    pub fn note(&mut self, word: u32)
        ensures { self.new ≡ parts_noted self.old word }
    {
        self.held = word;
        for part in self.parts.iter_mut() {
            part.habits.note(word & part.mask);
        }
    }

    /// The chance that this word comes next, after the word that is held came some times more: that
    /// all its parts do, each by itself.
    pub fn chance(&self, more: u32, word: u32) -> u32
        ensures { result ≡ chance_by_parts self.now.parts.items more word }
    {
        let mut chance = CERTAIN;
        for part in self.parts.as_slice() {
            chance = portion(chance, part.chance(more, word));
        }
        chance
    }

    /// The chance that the guesses gave a word that came.
    pub(crate) fn foreseen(&self, word: u32) -> u32
        ensures { result ≡ foreseen_by_parts self.now word }
    {
        let mut chance = CERTAIN;
        for part in self.parts.as_slice() {
            chance = portion(chance, part.habits.foreseen(word & part.mask));
        }
        chance
    }
}
