//! The choice of guesses by parts of a word.
ghost use Rattle.std.specs.Prelude.{◌≡◌, ◌<◌, ◌≤◌, [], length, All, None};
ghost use Rattle.std.specs.Bool.{IsFalse, IsTrue};
ghost use Rattle.roll_frame.specs.declared.limits.TheConstants.{PATH_LIMIT};
ghost use Rattle.roll_guess.specs.Guesses.{takes_guesses, view_of, AreOffered, AreUnlike, IsFalling, IsRanking, Suits};
ghost use Rattle.roll_guess.specs.PartGuesses.{worth_by_parts, IsCompleteByParts, IsFirstChange, IsPartChange, IsPartCourse, IsValueChange, IsWiderChange};
ghost use Rattle.roll_guess.specs.declared.limits.TheConstants.{UNKNOWN_LIMIT};
ghost use Rattle.roll_session.specs.Guessing.{guess_refusal_of};

use crate::choice::view_of;
use crate::limits::UNKNOWN_LIMIT;
use crate::part_course::PartCourse;
use crate::part_habits::{Part, PartHabits};
use crate::ranking::{Ranking, View, offer};
use arrayvec::ArrayVec;
use roll_frame::PATH_LIMIT;
use roll_game::Game;
use roll_session::Session;

impl PartHabits {
    /// The guesses of a player's next words that are worth making now, best first: that its word is
    /// held for some frames and then one part of it changes to a known value, and perhaps one more
    /// in the same frame. None is left out for one that is worth less; a second part is changed in
    /// the 32 best. The session is to have taken all words that were noted. Make them as those of
    /// `Habits::choose`.
    pub fn choose<G: Game>(&self, session: &Session<G>, player: u8) -> Ranking
        ensures accepted { All (λ guess.
            guess_refusal_of session.now player guess.words.items guess.until ≡ None) result.items }
        ensures suits { let view = view_of session.now player in
            All (Suits (worth_by_parts self.now view) view) result.items }
        ensures falling { IsFalling result.items }
        ensures unlike { AreUnlike result.items }
        ensures complete { IsTrue (takes_guesses session.now player)
            → IsCompleteByParts self.now (view_of session.now player) result.items }
        ensures none { IsFalse (takes_guesses session.now player) → result.items ≡ [] }
    {
        match view_of(session, player) {
            Some(view) => self.ranking(&view),
            None => ArrayVec::new(),
        }
    }

    /// The guesses in which one part is changed, and those of a second one in the frame of the best
    /// of these.
    pub(crate) fn ranking(&self, view: &View) -> Ranking
        requires reach { view.now.settled < view.now.reach }
        requires few { view.now.unknown ≤ UNKNOWN_LIMIT }
        ensures { IsCompleteByParts self.now view.now result.items }
    {
        let mut singles = ArrayVec::new();
        self.offer_first_changes(view, &mut singles);
        let mut ranking = ArrayVec::new();
        self.offer_first_changes(view, &mut ranking);
        for single in singles.as_slice() {
            self.offer_wider_changes(view, single.words.as_slice(), &mut ranking);
        }
        ranking
    }

    /// Offers the guesses that the word is held on for some frames, or none, and that a part is
    /// then changed, within the frames that have no word yet.
    fn offer_first_changes(&self, view: &View, ranking: &mut Ranking)
        requires reach { view.now.settled < view.now.reach }
        requires few { view.now.unknown ≤ UNKNOWN_LIMIT }
        requires ranked { IsRanking (worth_by_parts self.now view.now) view.now ranking.old.items }
        ensures { AreOffered (worth_by_parts self.now view.now) view.now
            (IsFirstChange self.now view.now) ranking.old.items ranking.new.items }
    {
        let mut course = PartCourse::start(self);
        while course.words.len() < usize::from(view.unknown) {
            self.offer_changes_of(view, &course, self.held, ranking);
            course = course.then(self, self.held);
        }
    }

    /// Offers the guesses of these words, but that in the last of them one part more is changed.
    fn offer_wider_changes(&self, view: &View, words: &[u32], ranking: &mut Ranking)
        requires reach { view.now.settled < view.now.reach }
        requires some { 1 ≤ length words.now }
        requires few { length words.now ≤ PATH_LIMIT }
        requires ranked { IsRanking (worth_by_parts self.now view.now) view.now ranking.old.items }
        ensures { AreOffered (worth_by_parts self.now view.now) view.now
            (IsWiderChange self.now words.now) ranking.old.items ranking.new.items }
    {
        let last = words.len() - 1;
        let course = PartCourse::along(self, &words[..last]);
        self.offer_changes_of(view, &course, words[last], ranking);
    }

    /// Offers the guesses that after a course this word comes, but that a part is changed that is
    /// in it as it is held.
    fn offer_changes_of(&self, view: &View, course: &PartCourse, word: u32, ranking: &mut Ranking)
        requires reach { view.now.settled < view.now.reach }
        requires course { IsPartCourse self.now course.now }
        requires room { length course.now.words.items < PATH_LIMIT }
        requires ranked { IsRanking (worth_by_parts self.now view.now) view.now ranking.old.items }
        ensures { AreOffered (worth_by_parts self.now view.now) view.now
            (IsPartChange self.now.parts.items course.now.words.items word)
            ranking.old.items ranking.new.items }
    {
        for part in self.parts.as_slice() {
            if word & part.mask == part.habits.held.word {
                self.offer_values(view, course, word, part, ranking);
            }
        }
    }

    /// Offers the guesses that after a course this word comes, but with each other value of a part
    /// that is known.
    fn offer_values(
        &self,
        view: &View,
        course: &PartCourse,
        word: u32,
        part: &Part,
        ranking: &mut Ranking,
    )
        requires reach { view.now.settled < view.now.reach }
        requires course { IsPartCourse self.now course.now }
        requires room { length course.now.words.items < PATH_LIMIT }
        requires ranked { IsRanking (worth_by_parts self.now view.now) view.now ranking.old.items }
        ensures { AreOffered (worth_by_parts self.now view.now) view.now
            (IsValueChange course.now.words.items word part.now)
            ranking.old.items ranking.new.items }
    {
        for value in part.habits.known.as_slice() {
            if *value != part.habits.held.word {
                let next = course.then(self, part.changed(word, *value));
                offer(ranking, view.guess(next.words, next.chance));
            }
        }
    }
}
