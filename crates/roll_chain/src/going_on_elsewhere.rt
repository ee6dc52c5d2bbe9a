//! A session, and the network beside it, go on in the next epoch.
ghost use Rattle.std.specs.Prelude.{◌≡◌, IfErr, IfOk, OnErr, OnOk};
ghost use Rattle.roll_relay.specs.Relaying.{opened_beside};
ghost use Rattle.roll_requests.specs.Ended.{IsEnded};
ghost use Rattle.roll_chain.specs.GoingOnElsewhere.{GoesOn, IsShort, IsStartedAs, IsWhyNotGone, IsWhyNotStarted};

use crate::chain::Chain;
use crate::past::Past;
use crate::seam::Opening;
use crate::seam_refusal::SeamRefusal;
use roll_frame::Refusal;
use roll_peer::{OpenRefusal, Peer};
use roll_relay::Relay;
use roll_requests::{Closing, Elsewhere};
use roll_session::Core;
use std::alloc::Global;
use std::mem;

/// The session of the next epoch takes the place of this one's, and so do the network and what carries beside it.
///
/// # Errors
///
/// Why that can't be. Nothing is changed then.
pub(crate) fn go_on(
    alloc: Global,
    chain: &mut Chain,
    peer: &mut Peer,
    relay: &mut Relay,
    session: &mut Elsewhere,
    opening: &Opening,
) -> Result<(Past<Core<u32>>, Closing), SeamRefusal>
    ensures goes_on { IfOk result (λ it. GoesOn opening.now chain.old chain.new peer.old peer.new
        relay.old relay.new session.old session.new it.0 it.1) }
    ensures chain { OnErr result (chain.new ≡ chain.old) }
    ensures peer { OnErr result (peer.new ≡ peer.old) }
    ensures relay { OnErr result (relay.new ≡ relay.old) }
    ensures session { OnErr result (session.new ≡ session.old) }
    ensures refused { IfErr result (IsWhyNotGone opening.now chain.old session.old) }
{
    if session.jobs_out() != 0 {
        return Err(SeamRefusal::JobsOut);
    }
    let next = match start_next(alloc, session, opening) {
        Ok(next) => next,
        Err(why) => return Err(SeamRefusal::Session(why)),
    };
    let mut later = *chain;
    let past = match later.follow(alloc, peer, &next, opening) {
        Ok(past) => past,
        Err(why) => return Err(SeamRefusal::Network(why)),
    };
    match take_over(alloc, peer, relay, session, next, opening.end) {
        Ok((carried, ended, closing)) => {
            *chain = later;
            Ok((
                Past {
                    peer: past,
                    relay: carried,
                    session: ended,
                },
                closing,
            ))
        }
        Err(why) => {
            *peer = past;
            Err(why)
        }
    }
}

/// The session of the next epoch, which has this one's limit of slots, once there is room for this one's end.
fn start_next(
    alloc: Global,
    session: &mut Elsewhere,
    opening: &Opening,
) -> Result<Elsewhere, Refusal>
    ensures started { IfOk result (IsStartedAs opening.now.settings session.old.limit) }
    ensures refused { IfErr result (IsWhyNotStarted opening.now session.old) }
    ensures same { session.new ≡ session.old }
{
    session.reserve_end(opening.end)?;
    let mut next = Elsewhere::start(alloc, opening.settings)?;
    next.set_limit(session.limit());
    Ok(next)
}

/// The next session takes the place of one that ends, and what carries beside the next network that of what carried.
fn take_over(
    alloc: Global,
    peer: &Peer,
    relay: &mut Relay,
    session: &mut Elsewhere,
    next: Elsewhere,
    end: u32,
) -> Result<(Relay, Core<u32>, Closing), SeamRefusal>
    ensures taken { IfOk result (λ it. (it.0 ≡ relay.old) × IsEnded session.old end it.1 it.2) }
    ensures next { OnOk result (session.new ≡ next) }
    ensures carries { OnOk result (relay.new ≡ opened_beside peer.now) }
    ensures refused { IfErr result IsShort }
    ensures relay { OnErr result (relay.new ≡ relay.old) }
    ensures session { OnErr result (session.new ≡ session.old) }
{
    let Ok(carrying) = Relay::open(alloc, peer) else {
        return Err(SeamRefusal::Network(OpenRefusal::NoMemory));
    };
    let old = mem::replace(session, next);
    match old.end(end) {
        Ok((ended, closing)) => Ok((mem::replace(relay, carrying), ended, closing)),
        Err(old) => {
            *session = old;
            Err(SeamRefusal::Session(Refusal::NoMemory))
        }
    }
}
