//! Words that may come next, one after another.
ghost use Rattle.std.specs.Prelude.{◌≡◌, ◌<◌, ◌≤◌, ◌++◌, ◌∷◌, [], length};
ghost use Rattle.roll_guess.specs.Guesses.{IsCourse};
ghost use Rattle.roll_guess.specs.Habits.{held_after};

use crate::habits::{Habits, Held, portion};
use crate::limits::CERTAIN;
use arrayvec::ArrayVec;
use roll_frame::PATH_LIMIT;

/// Words that may come next, how likely they are, and what is held after them.
#[derive(Debug, Drop)]
pub(crate) struct Course {
    pub(crate) words: ArrayVec<u32, PATH_LIMIT>,
    pub(crate) held: Held,
    pub(crate) chance: u32,
}

impl Course {
    /// No word yet.
    pub(crate) fn start(habits: &Habits) -> Course
        ensures course { IsCourse habits.now result }
        ensures words { result.words.items ≡ [] }
    {
        Course {
            words: ArrayVec::new(),
            held: habits.held,
            chance: CERTAIN,
        }
    }

    /// The course and one more word.
    pub(crate) fn then(&self, habits: &Habits, word: u32) -> Course
        requires course { IsCourse habits.now self.now }
        requires room { length self.now.words.items < PATH_LIMIT }
        ensures course { IsCourse habits.now result }
        ensures words { result.words.items ≡ self.now.words.items ++ word ∷ [] }
        ensures held { result.held ≡ held_after self.now.held word }
    {
        let mut words = ArrayVec::new();
        words.try_extend_from_slice(self.words.as_slice()).unwrap();
        words.push(word);
        Course {
            words,
            held: self.held.then(word),
            chance: portion(self.chance, habits.chance(self.held, word)),
        }
    }

    /// The course of these words.
    pub(crate) fn along(habits: &Habits, words: &[u32]) -> Course
        requires { length words.now ≤ PATH_LIMIT }
        ensures course { IsCourse habits.now result }
        ensures words { result.words.items ≡ words.now }
    {
        let mut course = Course::start(habits);
        for word in words {
            course = course.then(habits, *word);
        }
        course
    }
}
