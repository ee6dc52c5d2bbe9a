//! A match that goes on in epochs, beside a session.
ghost use Rattle.std.specs.Prelude.{◌≡◌, None, option_map};
ghost use Rattle.roll_relay.specs.Relayed.{bytes_of};
ghost use Rattle.roll_chain.specs.Again.{given_again, ArePlayed};
ghost use Rattle.roll_chain.specs.Calls.{DeclinesCall, MakesCall};
ghost use Rattle.roll_chain.specs.Epochs.{judged_in, kept_past, shared_past, shared_peer, turned_in, GoesOnIn, HearsBefore, IsNextBefore, SendsBefore};

use crate::again::Again;
use crate::chain::Chain;
use crate::going_on_elsewhere::go_on;
use crate::past::Past;
use crate::seam_refusal::SeamRefusal;
use arrayvec::ArrayVec;
use roll_peer::{Ignored, OtherSession, Peer};
use roll_relay::Relay;
use roll_requests::{Closing, Elsewhere};
use roll_session::{Core, Networked};
use roll_wire::DATAGRAM_LIMIT;
use std::alloc::Global;

/// What a match that goes on in epochs has beside its network: how this epoch opened, and the one before, as long as somebody may still
/// be in it. Give its calls always the same network and session.
#[derive(Drop)]
pub struct Epochs<S> {
    /// How the match goes on.
    pub chain: Chain,
    /// The epoch before.
    pub past: Option<Past<S>>,
}

impl<S: Networked + Drop> Epochs<S> {
    /// A match that begins so.
    pub fn new(chain: Chain) -> Epochs<S>
        ensures { result ≡ record { chain = chain; past = None } }
    {
        Epochs { chain, past: None }
    }

    /// A turn begins: what the epoch before knows of who is there is known here, and the other way round; it is forgotten once nobody can
    /// be in it any more; and marks are judged. Call it before the network's own turn.
    pub fn turn(&mut self, peer: &mut Peer)
        ensures peer { peer.new ≡ judged_in self.old (shared_peer self.old peer.old) }
        ensures epochs { self.new ≡ turned_in self.old peer.old }
    {
        self.share(peer);
        self.keep_past(peer);
        self.chain.judge(peer);
    }

    fn share(&mut self, peer: &mut Peer)
        ensures peer { peer.new ≡ shared_peer self.old peer.old }
        ensures past { self.new ≡ record self.old { past = shared_past self.old peer.old } }
    {
        if let Some(past) = &mut self.past {
            self.chain.share(peer, &mut past.peer);
        }
    }

    /// The epoch before is forgotten, unless somebody may be in it. Else a turn begins for it.
    fn keep_past(&mut self, peer: &Peer)
        ensures { self.new ≡ record self.old { past = kept_past self.old peer.now } }
    {
        if self.chain.is_past_over(peer) {
            self.past = None;
        }
        if let Some(past) = &mut self.past {
            past.turn();
        }
    }

    /// Hears bytes in the epoch before that this one's network found not to be sealed for it.
    ///
    /// # Errors
    ///
    /// As of the network's call; `NotSealed` if there is no epoch before.
    pub fn receive(&mut self, bytes: &[u8], now: u32) -> Result<(), Ignored>
        ensures { HearsBefore S.seen S.step bytes.now now self.old self.new result }
    {
        match &mut self.past {
            Some(past) => past.receive(bytes, now),
            None => Err(Ignored::NotSealed),
        }
    }

    /// What is to be sent to a machine in the epoch before: also to one that has come, which may have to hand on what somebody lacks
    /// who hasn't.
    ///
    /// # Errors
    ///
    /// As of the network's call.
    pub fn send(
        &mut self,
        machine: u8,
        now: u32,
    ) -> Result<Option<ArrayVec<u8, DATAGRAM_LIMIT>>, OtherSession>
        ensures { SendsBefore S.seen machine now self.old self.new
            (bytes_of (λ bytes. bytes.items) result) }
    {
        match &mut self.past {
            Some(past) => past.send(machine, now),
            None => Ok(None),
        }
    }

    /// What goes out in the epoch before beside what is sent to each machine, and to which machine.
    pub fn next(&mut self) -> Option<(u8, ArrayVec<u8, DATAGRAM_LIMIT>)>
        ensures { IsNextBefore self.old self.new (option_map (λ x. (x.0, x.1.items)) result) }
    {
        match &mut self.past {
            Some(past) => past.next(),
            None => None,
        }
    }
}

impl Epochs<Core<u32>> {
    /// Goes on in the next epoch, if this one is over: the session starts anew, with the same limit of slots, and so
    /// does the network. What own players gave past the end is given again, and frames past it are run again, as far as
    /// the new session takes that: the answer doesn't say how far it did. Answers the last requests of the session that
    /// ended: they are to be carried out before those of the new one. None if the epoch isn't over. Marks are judged
    /// first.
    ///
    /// # Errors
    ///
    /// Why it doesn't go on. Nothing else is changed then.
    pub fn go_on(
        &mut self,
        alloc: Global,
        peer: &mut Peer,
        relay: &mut Relay,
        session: &mut Elsewhere,
    ) -> Result<Option<Closing>, SeamRefusal>
        ensures { GoesOnIn self.old self.new (judged_in self.old peer.old) peer.new relay.old
            relay.new session.old session.new result }
    {
        self.chain.judge(peer);
        self.go_on_judged(alloc, peer, relay, session)
    }

    /// The same once marks are judged.
    fn go_on_judged(
        &mut self,
        alloc: Global,
        peer: &mut Peer,
        relay: &mut Relay,
        session: &mut Elsewhere,
    ) -> Result<Option<Closing>, SeamRefusal>
        ensures { GoesOnIn self.old self.new peer.old peer.new relay.old relay.new session.old
            session.new result }
    {
        let Some(opening) = self.chain.opening(peer, session) else {
            return Ok(None);
        };
        match go_on(alloc, &mut self.chain, peer, relay, session, &opening) {
            Ok((past, closing)) => {
                self.play_again(peer, &past, session, opening.end);
                self.past = Some(past);
                Ok(Some(closing))
            }
            Err(why) => Err(why),
        }
    }

    /// What own players gave past the end of the epoch before is given again.
    fn play_again(
        &self,
        peer: &Peer,
        past: &Past<Core<u32>>,
        session: &mut Elsewhere,
        end: u32,
    ) -> bool
        ensures { ArePlayed MakesCall DeclinesCall session.old
            (given_again self.now.chain.terms peer.now.settings.me past.now.session.seen end)
            session.new result }
    {
        let again = Again {
            terms: self.chain.terms(),
            me: peer.settings().me,
            past: &past.session,
        };
        again.play(session, end)
    }
}
