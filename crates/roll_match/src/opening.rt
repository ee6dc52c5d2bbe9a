//! A match begins.
ghost use Rattle.std.specs.Prelude.{◌≡◌, ◌≤◌, [], IfErr, IfOk};
ghost use Rattle.roll_chain.specs.Chains.{settings_of};
ghost use Rattle.roll_relay.specs.declared.held.TheConstants.{TURN_LIMIT};
ghost use Rattle.roll_match.specs.Opening.{IsOpened, IsOpenedIn, IsWhyClosed};
ghost use Rattle.roll_peer.specs.Peered.{IsWhyNot};

use crate::going_out::PLACES;
use crate::lasting::Lasting;
use crate::one::Match;
use roll_chain::{Chain, Epochs};
use roll_peer::{OpenRefusal, Peer};
use roll_relay::{Held, Relay};
use std::alloc::Global;

impl<S: Lasting> Match<S> {
    /// Opens a match beside a session that has just started.
    ///
    /// The chain says with which settings, and whether the match goes on in epochs. If it does, the session has the threshold and this
    /// machine's delays of `chain.terms()`, and machines that own no player in the epoch are gone from the start.
    ///
    /// `held_turns` is for how many turns, 0 to 8, an input of another machine waits at most before the session gets it. Meanwhile
    /// another thread can run its frames ahead. 0: the session gets each input as it comes.
    ///
    /// # Errors
    ///
    /// If the session can't take its seat, or the settings aren't those of a match, or there is no memory.
    pub fn open(
        alloc: Global,
        session: &S,
        chain: Chain,
        held_turns: u8,
    ) -> Result<Match<S>, OpenRefusal>
        requires { held_turns ≤ TURN_LIMIT }
        ensures opened { IfOk result (IsOpened (S.seen session.now) chain held_turns) }
        ensures refused { IfErr result (IsWhyClosed (S.seen session.now) chain) }
    {
        let peer = open_peer(alloc, session, &chain)?;
        match Relay::open(alloc, &peer) {
            Ok(relay) => Ok(Match {
                peer,
                held: held_for(held_turns),
                relay,
                epochs: Epochs::new(chain),
                engine: None,
                leaving: None,
                moment: 0,
                gone_out: PLACES,
            }),
            Err(_) => Err(OpenRefusal::NoMemory),
        }
    }
}

/// The network of the epoch in which a match opens here. If it goes on in epochs, nobody sits where no player is owned.
fn open_peer<S: Lasting>(alloc: Global, session: &S, chain: &Chain) -> Result<Peer, OpenRefusal>
    ensures opened { IfOk result (IsOpenedIn (S.seen session.now) chain.now) }
    ensures refused { IfErr result (IsWhyNot (S.seen session.now) (settings_of chain.now)) }
{
    match Peer::open(alloc, session, chain.settings()) {
        Ok(mut peer) => {
            if chain.lasts() {
                chain.leave_out(&mut peer);
            }
            Ok(peer)
        }
        Err(why) => Err(why),
    }
}

/// Nothing waits, and what comes does for so many turns at most.
fn held_for(turns: u8) -> Held
    requires { turns ≤ TURN_LIMIT }
    ensures words { result.words.items ≡ [] }
    ensures waited { result.waited.items ≡ [] }
    ensures turns { result.turns ≡ turns }
{
    match Held::new(turns) {
        Some(held) => held,
        None => unreachable!(),
    }
}
