//! What was seen of one player by whole words and by parts, and the choice between the two.
ghost use Rattle.std.specs.Prelude.{◌≡◌, []};
ghost use Rattle.std.specs.Bool.{IsFalse, IsTrue};
ghost use Rattle.std.specs.Prelude.{All, None};
ghost use Rattle.roll_guess.specs.Guesses.{takes_guesses, view_ahead, view_of, AreUnlike, IsFalling};
ghost use Rattle.roll_guess.specs.Players.{first_player, player_noted, prefers_parts, scored, IsChosen};
ghost use Rattle.roll_session.specs.Guessing.{guess_refusal_of};

use crate::habits::Habits;
use crate::limits::SCORE_FADE;
use crate::part_habits::PartHabits;
use crate::parts::WordParts;
use crate::ranking::{Ranking, View};
use roll_game::Game;
use roll_session::Session;

/// The score once a word came that was given this chance.
fn scored(score: u32, chance: u32) -> u32
    ensures { result ≡ scored score chance }
{
    (score - score / SCORE_FADE).saturating_add(chance)
}

/// What was seen of one player by now, by whole words and by parts of them. Each foresees the next
/// change with a chance, and what foresaw more of the last changes chooses the guesses: whole words
/// of a player who has few, parts of one who plays with a pad.
#[derive(Debug, Drop)]
pub struct PlayerHabits {
    pub words: Habits,
    pub parts: PartHabits,
    /// What whole words foresaw of the last changes, which fades: of each change the chance that they
    /// gave to the word that came, none if it wasn't known.
    pub of_words: u32,
    /// And what parts did: none if the word's value of a part wasn't known.
    pub of_parts: u32,
}

impl PlayerHabits {
    /// Nothing was seen yet: until a change, guesses are by whole words. The words are those that
    /// are likely, as for `Habits::new`.
    pub fn new(parts: &WordParts, likely: &[u32]) -> PlayerHabits
        ensures { result ≡ first_player parts.now.masks.items likely.now }
    {
        PlayerHabits {
            words: Habits::new(likely),
            parts: PartHabits::new(parts, likely),
            of_words: 0,
            of_parts: 0,
        }
    }

    /// Notes the player's next confirmed word. Tell each once, in the order of their frames.
    pub fn note(&mut self, word: u32)
        ensures { self.new ≡ player_noted self.old word }
    {
        if word != self.words.held.word {
            self.of_words = scored(self.of_words, self.words.foreseen(word));
            self.of_parts = scored(self.of_parts, self.parts.foreseen(word));
        }
        self.words.note(word);
        self.parts.note(word);
    }

    /// Whether parts foresaw more of the last changes than whole words did.
    pub fn prefers_parts(&self) -> bool
        ensures { result ≡ prefers_parts self.now }
    {
        self.of_words < self.of_parts
    }

    /// The guesses of the player's next words that are worth making now, best first, by what
    /// foresaw more of its last changes: those of `Habits::choose`, or of `PartHabits::choose`. The
    /// session is to have taken all words that were noted.
    pub fn choose<G: Game>(&self, session: &Session<G>, player: u8) -> Ranking
        ensures accepted { All (λ guess.
            guess_refusal_of session.now player guess.words.items guess.until ≡ None) result.items }
        ensures falling { IsFalling result.items }
        ensures unlike { AreUnlike result.items }
        ensures chosen { IsTrue (takes_guesses session.now player)
            → IsChosen self.now (view_of session.now player) result.items }
        ensures none { IsFalse (takes_guesses session.now player) → result.items ≡ [] }
    {
        if self.prefers_parts() {
            self.parts.choose(session, player)
        } else {
            self.words.choose(session, player)
        }
    }

    /// The guesses of the player's next words, best first, if these many frames have no word of it
    /// yet: of them the first 16 count. This asks no session: how far each is run is up to whoever
    /// makes it.
    pub fn guesses(&self, unknown: u32) -> Ranking
        ensures falling { IsFalling result.items }
        ensures unlike { AreUnlike result.items }
        ensures chosen { IsChosen self.now (view_ahead unknown) result.items }
    {
        let view = View::ahead(unknown);
        if self.prefers_parts() {
            self.parts.ranking(&view)
        } else {
            self.words.ranking(&view)
        }
    }
}
