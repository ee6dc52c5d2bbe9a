//! Inputs that wait for the session.
ghost use Rattle.std.specs.Prelude.{◌≡◌, ◌⊎◌, [], IsFalse, IsTrue};
ghost use Rattle.roll_relay.specs.Pressed.{is_pressed, RefusesNext, TakesNext};
ghost use Rattle.roll_match.specs.Turning.{TellsFirst};

use crate::lasting::Lasting;
use crate::one::Match;
use roll_relay::{HeldFault, RemoteWord};

impl<S: Lasting> Match<S> {
    /// The inputs that wait for the session, in the order in which they came: another thread can run their frames ahead. The session's
    /// own `rerun` says how many frames it would run again, if it got the first so many of these.
    pub fn waiting(&self) -> &[RemoteWord]
        ensures { result.now ≡ self.now.held.words.items }
    {
        self.held.waiting()
    }

    /// Whether the inputs that wait should be handed over now: some do, and once the session has come to its next frame, it would refuse
    /// an input of this machine for its threshold, unless it gets more.
    pub fn is_pressed(&self, session: &S) -> bool
        ensures pressed { result ≡ is_pressed (S.seen session.now) self.now.held.words.items }
        ensures refused { IsTrue result → RefusesNext (S.seen session.now) }
        ensures taken { IsFalse result → (self.now.held.words.items ≡ [])
            ⊎ TakesNext (S.seen session.now) }
    {
        self.held.is_pressed(session)
    }

    /// Hands the first so many inputs that wait over to the session, or all if there are fewer: it gets them before they have waited for
    /// as many turns as they may. A program calls it once their frames are there.
    ///
    /// # Errors
    ///
    /// `OtherSession` if those that wait aren't the session's next ones; `LogFull` or `NoMemory` if there is no room for all of them. Nothing
    /// is changed then.
    pub fn hand_over(&mut self, session: &mut S, count: usize) -> Result<(), HeldFault>
        ensures handed { TellsFirst S.seen count session.old session.new self.old self.new result }
        ensures keeps { S.keeps session.old session.new }
    {
        match self.held.hand_over(session, count) {
            Ok(()) => Ok(()),
            Err(why) => Err(why),
        }
    }
}
