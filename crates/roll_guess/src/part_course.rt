//! The word that is held, some times more, and a last one, and how likely they are by parts.
ghost use Rattle.std.specs.Prelude.{◌≡◌, ◌<◌, ◌≤◌, ◌++◌, ◌∷◌, [], length};
ghost use Rattle.roll_guess.specs.PartGuesses.{IsPartCourse};

use crate::habits::portion;
use crate::limits::CERTAIN;
use crate::part_habits::PartHabits;
use arrayvec::ArrayVec;
use roll_frame::PATH_LIMIT;

/// Words that may come next, all but the last as the one that is held, and how likely they are by
/// parts.
#[derive(Debug, Drop)]
pub(crate) struct PartCourse {
    pub(crate) words: ArrayVec<u32, PATH_LIMIT>,
    pub(crate) chance: u32,
}

impl PartCourse {
    /// No word yet.
    pub(crate) fn start(habits: &PartHabits) -> PartCourse
        ensures course { IsPartCourse habits.now result }
        ensures words { result.words.items ≡ [] }
    {
        PartCourse {
            words: ArrayVec::new(),
            chance: CERTAIN,
        }
    }

    /// The course and one more word.
    pub(crate) fn then(&self, habits: &PartHabits, word: u32) -> PartCourse
        requires course { IsPartCourse habits.now self.now }
        requires room { length self.now.words.items < PATH_LIMIT }
        ensures course { IsPartCourse habits.now result }
        ensures words { result.words.items ≡ self.now.words.items ++ word ∷ [] }
    {
        let mut words = ArrayVec::new();
        words.try_extend_from_slice(self.words.as_slice()).unwrap();
        words.push(word);
        let more = self.words.len() as u32;
        PartCourse {
            words,
            chance: portion(self.chance, habits.chance(more, word)),
        }
    }

    /// The course of these words.
    pub(crate) fn along(habits: &PartHabits, words: &[u32]) -> PartCourse
        requires { length words.now ≤ PATH_LIMIT }
        ensures course { IsPartCourse habits.now result }
        ensures words { result.words.items ≡ words.now }
    {
        let mut course = PartCourse::start(habits);
        for word in words {
            course = course.then(habits, *word);
        }
        course
    }
}
