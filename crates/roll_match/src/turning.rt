//! How a turn begins.
ghost use Rattle.std.specs.Prelude.{true};
ghost use Rattle.roll_match.specs.Turning.{Begins, Closes, Ends, GoesOver, TellsAll, TellsDue, Turns};

use crate::lasting::{Lasting, go_on_with};
use crate::one::Match;
use roll_chain::SeamRefusal;
use roll_peer::PeerRefusal;
use roll_relay::HeldFault;
use std::alloc::Global;

/// What a turn has done.
#[derive(Drop)]
pub struct Turn<L> {
    /// What the network answered: an error if the session isn't the match's, if it refuses that a player leaves it, or if it has no room
    /// for the inputs that wait for it. The next turn tries it again.
    pub polled: Result<Result<(), PeerRefusal>, HeldFault>,
    /// How many words of inputs had waited for as many turns as they may, so that the session got them; or why it got none. The next
    /// turn tries it again.
    pub handed: Result<usize, HeldFault>,
    /// If the epoch was over, and the next one has begun: what its end leaves to the program, which it does first of all. The session
    /// has begun anew, and stands at the frame up to which it ran what the players of this machine had given past the end.
    pub last: Option<L>,
    /// Why the next epoch doesn't begin, though this one is over. The next turn tries it again.
    pub stays: Option<SeamRefusal>,
}

impl<S: Lasting> Match<S> {
    /// A turn begins, at a moment: `now` is this machine's clock in milliseconds, which may wrap round. Call it once in each turn of the
    /// main loop, after `receive` and before the session plays and `next`.
    ///
    /// A machine that was silent for too long is gone from now on, and its players leave the session. The session gets the inputs that
    /// have waited for as many turns as they may. If the epoch is over, the next one begins, once its session has what it needs
    /// ([`Match::give_engine`]) and there is memory. Events tell what happened.
    pub fn turn(&mut self, alloc: Global, session: &mut S, now: u32) -> Turn<S::Last>
        ensures { Turns S.seen S.has_gone_on S.has_not_gone_on now session.old session.new self.old
            self.new result.polled result.handed result.last result.stays }
    {
        let polled = self.begin(session, now);
        let handed = self.tell_due(session);
        let (last, stays) = self.end(alloc, session);
        Turn {
            polled,
            handed,
            last,
            stays,
        }
    }

    /// What is known of who is there is shared with the epoch before, marks are judged, and the network polls. All that goes out goes
    /// out anew.
    fn begin(&mut self, session: &mut S, now: u32) -> Result<Result<(), PeerRefusal>, HeldFault>
        ensures { Begins S.seen now session.old session.new self.old self.new result }
    {
        self.epochs.turn(&mut self.peer);
        let said = self.held.poll(&mut self.peer, session, now);
        self.relay.turn(&self.peer);
        self.moment = now;
        self.gone_out = 0;
        said
    }

    /// The session is told what has waited for as many turns as it may.
    fn tell_due(&mut self, session: &mut S) -> Result<usize, HeldFault>
        ensures { TellsDue S.seen session.old session.new self.old self.new result }
    {
        match self.held.turn(session) {
            Ok(count) => Ok(count),
            Err(why) => Err(why),
        }
    }

    /// The epoch ends, if it is over.
    fn end(&mut self, alloc: Global, session: &mut S) -> (Option<S::Last>, Option<SeamRefusal>)
        ensures { Ends S.seen S.has_gone_on S.has_not_gone_on session.old session.new self.old
            self.new result.0 result.1 }
    {
        if self.close(session) {
            self.go_over(alloc, session)
        } else {
            (None, None)
        }
    }

    /// If the epoch is over, the session is told all that waits. Says whether that is done.
    fn close(&mut self, session: &mut S) -> bool
        ensures { Closes S.seen session.old session.new self.old self.new result }
    {
        match self.epochs.chain.over(&self.peer, session) {
            Some(_) => match self.tell_all(session) {
                Ok(()) => true,
                Err(_) => false,
            },
            None => false,
        }
    }

    /// The session is told all that waits.
    pub(crate) fn tell_all(&mut self, session: &mut S) -> Result<(), HeldFault>
        ensures told { TellsAll S.seen session.old session.new self.old self.new result }
        ensures keeps { S.keeps session.old session.new }
    {
        let count = self.held.waiting().len();
        match self.held.hand_over(session, count) {
            Ok(()) => Ok(()),
            Err(why) => Err(why),
        }
    }

    /// The next epoch begins, if it can.
    fn go_over(&mut self, alloc: Global, session: &mut S) -> (Option<S::Last>, Option<SeamRefusal>)
        ensures { GoesOver S.has_gone_on S.has_not_gone_on session.old session.new self.old self.new
            true result.0 result.1 }
    {
        go_on_with(
            alloc,
            session,
            &mut self.epochs,
            &mut self.peer,
            &mut self.relay,
            &mut self.engine,
        )
    }
}
