//! What own players gave past the end of an epoch is given again in the next one.
ghost use Rattle.std.specs.Prelude.{◌≡◌, ◌<◌, ◌≤◌, true, false};
ghost use Rattle.roll_frame.specs.declared.limits.TheConstants.{FRAME_LIMIT};
ghost use Rattle.roll_mesh.specs.declared.limits.TheConstants.{PLAYER_LIMIT};
ghost use Rattle.roll_chain.specs.Again.{frame_calls, given_again, word_of, words_until, ArePlayed};

use crate::plays::Plays;
use roll_epoch::Terms;
use roll_member::given_at;
use roll_mesh::PLAYER_LIMIT;
use roll_session::{Call, Networked};

/// Whose words are given again: the epoch that begins, this machine's number in it, and the session of the epoch before.
#[derive(Drop)]
pub(crate) struct Again<'a, P> {
    /// How the epoch that begins opens.
    pub terms: &'a Terms,
    /// This machine's number in it.
    pub me: u8,
    /// The session of the epoch before.
    pub past: &'a P,
}

impl<P: Networked> Again<'_, P> {
    /// Gives a session that has just begun the words again that own players gave past the end of the epoch before, and runs the frames
    /// that were run past it, as far as the session takes that. Says whether it took all.
    pub(crate) fn play<S: Plays>(&self, session: &mut S, end: u32) -> bool
        ensures { ArePlayed S.makes S.declines session.old
            (given_again self.now.terms.now self.now.me (P.seen self.now.past.now) end) session.new
            result }
    {
        self.past.laws();
        let frames = self.past.frame().saturating_sub(end);
        for frame in 0..frames {
            if !self.run(session, end + frame) {
                return false;
            }
        }
        true
    }

    /// A frame of the epoch before once more. False if the session takes no more.
    fn run<S: Plays>(&self, session: &mut S, frame: u32) -> bool
        requires { frame ≤ FRAME_LIMIT }
        ensures { ArePlayed S.makes S.declines session.old
            (frame_calls self.now.terms.now self.now.me (P.seen self.now.past.now) frame)
            session.new result }
    {
        self.give_all(session, frame) && session.make(Call::Advance)
    }

    fn give_all<S: Plays>(&self, session: &mut S, frame: u32) -> bool
        requires { frame ≤ FRAME_LIMIT }
        ensures { ArePlayed S.makes S.declines session.old
            (words_until self.now.terms.now self.now.me (P.seen self.now.past.now) frame
            PLAYER_LIMIT) session.new result }
    {
        for place in 0..PLAYER_LIMIT {
            if !self.give(session, frame, place) {
                return false;
            }
        }
        true
    }

    fn give<S: Plays>(&self, session: &mut S, frame: u32, place: usize) -> bool
        requires frame { frame ≤ FRAME_LIMIT }
        requires place { place < PLAYER_LIMIT }
        ensures { ArePlayed S.makes S.declines session.old (word_of self.now.terms.now self.now.me
            (P.seen self.now.past.now) frame place) session.new result }
    {
        if self.terms.owners[place] != self.me {
            return true;
        }
        let word = given_at(
            self.past,
            place,
            frame + u32::from(self.terms.delays[place]),
        );
        session.make(Call::Local {
            player: place as u8 + 1,
            word,
        })
    }
}
