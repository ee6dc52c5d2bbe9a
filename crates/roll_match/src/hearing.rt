//! What comes by the network.
ghost use Rattle.roll_relay.specs.Waits.{Waits};
ghost use Rattle.roll_match.specs.Hearing.{Hears, HearsEarlier, HearsHere};

use crate::lasting::Lasting;
use crate::one::Match;
use crate::unheard::Unheard;
use roll_peer::Ignored;
use roll_relay::{Heard, HeldFault};

impl<S: Lasting> Match<S> {
    /// Hears a datagram that came by the network, at a moment: `now` is this machine's clock in milliseconds, which may wrap round. Give
    /// it all bytes that come to the program's socket, from wherever and however often: a datagram of this epoch or of the one before,
    /// who hears whom, what another machine carries, or what isn't of this match. The session gets the inputs that came at once, or they
    /// wait for it; it gets none twice.
    ///
    /// # Errors
    ///
    /// Why this machine doesn't hear the datagram: then nothing of it comes to the session. Strangers' bytes and old datagrams are no
    /// fault of the program, which can go on without a look at the answer.
    pub fn receive(&mut self, session: &mut S, bytes: &[u8], now: u32) -> Result<(), Unheard>
        ensures heard { Hears S.step S.Past.seen S.Past.step bytes.now now (S.seen session.old)
            (S.seen session.new) self.old self.new result }
        ensures waits { Waits (S.seen session.old) (S.seen session.new) self.old.held
            self.new.held }
        ensures keeps { S.keeps session.old session.new }
    {
        match self.receive_now(session, bytes, now) {
            Ok(Ok(_)) => Ok(()),
            Ok(Err(Ignored::NotSealed)) => self.receive_before(bytes, now),
            Ok(Err(why)) => Err(Unheard::Ignored(why)),
            Err(why) => Err(Unheard::Held(why)),
        }
    }

    /// Hears bytes in this epoch.
    fn receive_now(
        &mut self,
        session: &mut S,
        bytes: &[u8],
        now: u32,
    ) -> Result<Result<Heard, Ignored>, HeldFault>
        ensures heard { HearsHere S.step bytes.now now (S.seen session.old) (S.seen session.new)
            self.old self.new result }
        ensures waits { Waits (S.seen session.old) (S.seen session.new) self.old.held
            self.new.held }
        ensures keeps { S.keeps session.old session.new }
    {
        self.held
            .receive(&mut self.relay, &mut self.peer, session, bytes, now)
    }

    /// Hears bytes in the epoch before.
    fn receive_before(&mut self, bytes: &[u8], now: u32) -> Result<(), Unheard>
        ensures { HearsEarlier S.Past.seen S.Past.step bytes.now now self.old self.new result }
    {
        match self.epochs.receive(bytes, now) {
            Ok(()) => Ok(()),
            Err(why) => Err(Unheard::Ignored(why)),
        }
    }
}
