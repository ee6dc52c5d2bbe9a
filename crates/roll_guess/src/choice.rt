//! The choice of guesses.
ghost use Rattle.std.specs.Prelude.{◌≡◌, ◌<◌, ◌≤◌, [], length, All, None};
ghost use Rattle.std.specs.Bool.{then_some, IsFalse, IsTrue};
ghost use Rattle.roll_frame.specs.declared.limits.TheConstants.{PATH_LIMIT};
ghost use Rattle.roll_guess.specs.Guesses.{takes_guesses, view_of, worth_of_words, AreOffered, AreUnlike, IsChange, IsChangeAfter, IsComplete, IsCourse, IsFalling, IsRanking, Suits};
ghost use Rattle.roll_guess.specs.declared.limits.TheConstants.{UNKNOWN_LIMIT};
ghost use Rattle.roll_session.specs.Guessing.{guess_refusal_of};

use crate::course::Course;
use crate::habits::Habits;
use crate::limits::UNKNOWN_LIMIT;
use crate::ranking::{Ranking, View, offer};
use arrayvec::ArrayVec;
use roll_frame::PATH_LIMIT;
use roll_game::Game;
use roll_inputs::Source;
use roll_session::Session;

/// What a choice needs to know of a session. None if and only if the session takes no guess of this player.
pub(crate) fn view_of<G: Game>(session: &Session<G>, player: u8) -> Option<View>
    ensures { result ≡ then_some (takes_guesses session.now player) (view_of session.now player) }
{
    let from = session.confirmed(player)?;
    let Some(Source::Predicted) = session.source(player, from) else {
        return None;
    };
    let settled = session.settled();
    let reach = settled
        .saturating_add(PATH_LIMIT as u32)
        .min(session.settings().limit);
    if settled >= reach {
        return None;
    }
    Some(View {
        player,
        from,
        unknown: session.frame().saturating_sub(from).min(UNKNOWN_LIMIT) as u8,
        settled,
        reach,
    })
}

impl Habits {
    /// The guesses of a player's next words that are worth making now, best first: that its word is held for some
    /// frames and then changes to another known one, and perhaps changes once more, all within the frames that have no
    /// word yet, 16 at most. None is left out for one that is worth less; what may follow a first change is guessed of
    /// the 32 best. The session is to have taken all words that were noted.
    ///
    /// Make them in this order, until as many gave jobs as there is time for: one that gives none is kept already. Each is
    /// run a job's 8 rows past its change, so it gives its next job only 8 frames later, or once another player's word
    /// changes. Empty if no frame waits for a word of the player, or the session takes no guess of it.
    pub fn choose<G: Game>(&self, session: &Session<G>, player: u8) -> Ranking
        ensures accepted { All (λ guess. guess_refusal_of session.now player guess.words.items
            guess.until ≡ None) result.items }
        ensures suits { let view = view_of session.now player in
            All (Suits (worth_of_words self.now view) view) result.items }
        ensures falling { IsFalling result.items }
        ensures unlike { AreUnlike result.items }
        ensures complete { IsTrue (takes_guesses session.now player)
            → IsComplete self.now (view_of session.now player) result.items }
        ensures none { IsFalse (takes_guesses session.now player) → result.items ≡ [] }
    {
        match view_of(session, player) {
            Some(view) => self.ranking(&view),
            None => ArrayVec::new(),
        }
    }

    /// The guesses of one change, and of a second one after the best of these.
    pub(crate) fn ranking(&self, view: &View) -> Ranking
        requires reach { view.now.settled < view.now.reach }
        requires few { view.now.unknown ≤ UNKNOWN_LIMIT }
        ensures { IsComplete self.now view.now result.items }
    {
        let mut singles = ArrayVec::new();
        self.offer_changes(view, Course::start(self), &mut singles);
        let mut ranking = ArrayVec::new();
        self.offer_changes(view, Course::start(self), &mut ranking);
        for single in singles.as_slice() {
            let course = Course::along(self, single.words.as_slice());
            self.offer_changes(view, course, &mut ranking);
        }
        ranking
    }

    /// Offers the guesses that the word is held on after a course for some frames, or none, and then changes, within the
    /// frames that have no word yet.
    fn offer_changes(&self, view: &View, course: Course, ranking: &mut Ranking)
        requires reach { view.now.settled < view.now.reach }
        requires few { view.now.unknown ≤ UNKNOWN_LIMIT }
        requires course { IsCourse self.now course }
        requires ranked { IsRanking (worth_of_words self.now view.now) view.now ranking.old.items }
        ensures { AreOffered (worth_of_words self.now view.now) view.now
            (IsChange self.now view.now course.words.items) ranking.old.items ranking.new.items }
    {
        let mut course = course;
        while course.words.len() < usize::from(view.unknown) {
            self.offer_words(view, &course, ranking);
            course = course.then(self, course.held.word);
        }
    }

    /// Offers the guesses that each known word comes after a course, but for the one that is held.
    fn offer_words(&self, view: &View, course: &Course, ranking: &mut Ranking)
        requires reach { view.now.settled < view.now.reach }
        requires course { IsCourse self.now course.now }
        requires room { length course.now.words.items < PATH_LIMIT }
        requires ranked { IsRanking (worth_of_words self.now view.now) view.now ranking.old.items }
        ensures { AreOffered (worth_of_words self.now view.now) view.now
            (IsChangeAfter self.now course.now.words.items 0) ranking.old.items ranking.new.items }
    {
        for word in self.known.as_slice() {
            if *word != course.held.word {
                let next = course.then(self, *word);
                offer(ranking, view.guess(next.words, next.chance));
            }
        }
    }
}
