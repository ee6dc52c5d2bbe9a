//! The epoch before, as long as somebody may still be in it.
ghost use Rattle.std.specs.Prelude.{◌≡◌, option_map};
ghost use Rattle.roll_relay.specs.Relayed.{bytes_of};
ghost use Rattle.roll_chain.specs.Pasts.{done, turned_past, Hears, IsNextOf, Sends};

use arrayvec::ArrayVec;
use roll_peer::{Ignored, OtherSession, Peer};
use roll_relay::{Heard, Relay};
use roll_session::Networked;
use roll_wire::DATAGRAM_LIMIT;

/// The epoch before, as long as somebody may still be in it: its network, what that carries, and its session.
#[derive(Drop)]
pub struct Past<S> {
    /// Its network. Silence isn't looked for here: who is gone in one of the two epochs is gone in both.
    pub peer: Peer,
    /// What it carries for others.
    pub relay: Relay,
    /// Its session.
    pub session: S,
}

impl<S: Networked> Past<S> {
    /// A turn begins for what is carried.
    pub(crate) fn turn(&mut self)
        ensures { self.new ≡ turned_past self.old }
    {
        self.relay.turn(&self.peer);
    }

    /// Hears bytes that came by the network.
    ///
    /// # Errors
    ///
    /// As of the network's call.
    pub(crate) fn receive(&mut self, bytes: &[u8], now: u32) -> Result<(), Ignored>
        ensures { Hears S.seen S.step bytes.now now self.old self.new result }
    {
        let Past {
            peer,
            relay,
            session,
        } = self;
        done(relay.receive(peer, session, bytes, now))
    }

    /// What is to be sent to a machine straight.
    ///
    /// # Errors
    ///
    /// As of the network's call.
    pub(crate) fn send(
        &mut self,
        machine: u8,
        now: u32,
    ) -> Result<Option<ArrayVec<u8, DATAGRAM_LIMIT>>, OtherSession>
        ensures { Sends S.seen machine now self.old self.new
            (bytes_of (λ bytes. bytes.items) result) }
    {
        let Past {
            peer,
            relay,
            session,
        } = self;
        relay.send(peer, session, machine, now)
    }

    /// What goes out beside that, and to which machine.
    pub(crate) fn next(&mut self) -> Option<(u8, ArrayVec<u8, DATAGRAM_LIMIT>)>
        ensures { IsNextOf self.old self.new (option_map (λ x. (x.0, x.1.items)) result) }
    {
        self.relay.next(&self.peer)
    }
}

/// That something was heard.
fn done(said: Result<Heard, Ignored>) -> Result<(), Ignored>
    ensures { result ≡ done said }
{
    match said {
        Ok(_) => Ok(()),
        Err(why) => Err(why),
    }
}
