//! A session that has its game, and the network beside it, go on in the next epoch.
ghost use Rattle.std.specs.Prelude.{◌≡◌, IfErr, IfOk, OnErr, OnOk};
ghost use Rattle.roll_chain.specs.Again.{given_again, ArePlayed};
ghost use Rattle.roll_chain.specs.Calls.{DeclinesHere, MakesHere};
ghost use Rattle.roll_chain.specs.Epochs.{judged_in};
ghost use Rattle.roll_chain.specs.GoingOnHere.{GoesOnward, HasGoneOn, IsStartedFrom, IsWhyNotFollowed, IsWhyNotGone, IsWhyNotStarted};

use crate::again::Again;
use crate::chain::Chain;
use crate::epochs::Epochs;
use crate::onward_refusal::{OnwardFault, OnwardRefusal};
use crate::past::Past;
use crate::seam::Opening;
use crate::state::state_at;
use roll_frame::Refusal;
use roll_game::{Game, StartFault};
use roll_peer::{OpenRefusal, Peer};
use roll_relay::Relay;
use roll_session::{Core, Session};
use std::alloc::Global;
use std::mem;

/// Goes on in the next epoch, if this one is over: the session starts anew from the state at the end, and so does the network. What own
/// players gave past the end is given again, and frames past it are run again, as far as the new session takes that: it
/// isn't said how far it did. Marks are judged first.
///
/// The engine is another than the session's: it runs the rows up to the end that aren't settled, and then plays the next epoch. The one
/// that played this epoch is handed out.
///
/// # Errors
///
/// Why it doesn't go on, with the engine. Nothing else is changed then.
pub fn go_on<G: Game + Drop>(
    alloc: Global,
    epochs: &mut Epochs<Core<G::Snapshot>>,
    game: G,
    peer: &mut Peer,
    relay: &mut Relay,
    session: &mut Session<G>,
) -> Result<G, OnwardFault<G>>
    ensures gone { OnOk result (HasGoneOn G.step epochs.old epochs.new
        (judged_in epochs.old peer.old) peer.new relay.old relay.new session.old session.new) }
    ensures engine { IfOk result (λ engine. G.call_counts engine ≡ session.old.counts) }
    ensures refused { IfErr result (λ fault. IsWhyNotGone G.step epochs.old.chain
        (judged_in epochs.old peer.old) session.old fault.why) }
    ensures epochs { OnErr result (epochs.new ≡ epochs.old) }
    ensures peer { OnErr result (peer.new ≡ judged_in epochs.old peer.old) }
    ensures relay { OnErr result (relay.new ≡ relay.old) }
    ensures session { OnErr result (session.new ≡ session.old) }
{
    epochs.chain.judge(peer);
    go_on_judged(alloc, epochs, game, peer, relay, session)
}

/// The same once marks are judged.
fn go_on_judged<G: Game + Drop>(
    alloc: Global,
    epochs: &mut Epochs<Core<G::Snapshot>>,
    game: G,
    peer: &mut Peer,
    relay: &mut Relay,
    session: &mut Session<G>,
) -> Result<G, OnwardFault<G>>
    ensures gone { OnOk result (HasGoneOn G.step epochs.old epochs.new peer.old peer.new
        relay.old relay.new session.old session.new) }
    ensures engine { IfOk result (λ engine. G.call_counts engine ≡ session.old.counts) }
    ensures refused { IfErr result
        (λ fault. IsWhyNotGone G.step epochs.old.chain peer.old session.old fault.why) }
    ensures epochs { OnErr result (epochs.new ≡ epochs.old) }
    ensures peer { OnErr result (peer.new ≡ peer.old) }
    ensures relay { OnErr result (relay.new ≡ relay.old) }
    ensures session { OnErr result (session.new ≡ session.old) }
{
    let Some(opening) = epochs.chain.opening(peer, session) else {
        let why = OnwardRefusal::NotOver;
        return Err(OnwardFault { why, game });
    };
    match follow(
        alloc,
        &mut epochs.chain,
        game,
        peer,
        relay,
        session,
        &opening,
    ) {
        Ok((past, engine)) => {
            play_again(&epochs.chain, peer, &past, session, opening.end);
            epochs.past = Some(past);
            Ok(engine)
        }
        Err(fault) => Err(fault),
    }
}

/// The session of the next epoch takes the place of this one's, and so do the network and what carries beside it. This one's engine is
/// handed out.
///
/// # Errors
///
/// Why that can't be. Nothing is changed then.
fn follow<G: Game + Drop>(
    alloc: Global,
    chain: &mut Chain,
    game: G,
    peer: &mut Peer,
    relay: &mut Relay,
    session: &mut Session<G>,
    opening: &Opening,
) -> Result<(Past<Core<G::Snapshot>>, G), OnwardFault<G>>
    ensures goes_on { IfOk result (λ it. GoesOnward G.step opening.now chain.old chain.new peer.old
        peer.new relay.old relay.new session.old session.new it.0) }
    ensures engine { IfOk result (λ it. G.call_counts it.1 ≡ session.old.counts) }
    ensures refused { IfErr result
        (λ fault. IsWhyNotFollowed G.step opening.now chain.old session.old fault.why) }
    ensures chain { OnErr result (chain.new ≡ chain.old) }
    ensures peer { OnErr result (peer.new ≡ peer.old) }
    ensures relay { OnErr result (relay.new ≡ relay.old) }
    ensures session { OnErr result (session.new ≡ session.old) }
{
    let next = match start_next(alloc, game, session, opening) {
        Ok(next) => next,
        Err(fault) => return Err(fault),
    };
    let mut later = *chain;
    let past = match later.follow(alloc, peer, &next, opening) {
        Ok(past) => past,
        Err(why) => return Err(unopened(why, next)),
    };
    let Ok(carrying) = Relay::open(alloc, peer) else {
        *peer = past;
        return Err(unopened(OpenRefusal::NoMemory, next));
    };
    *chain = later;
    let parts = mem::replace(session, next).into_parts();
    let past = Past {
        peer: past,
        relay: mem::replace(relay, carrying),
        session: parts.core,
    };
    Ok((past, parts.game))
}

/// The session of the next epoch, which starts from the state at the end of this one.
fn start_next<G: Game + Drop>(
    alloc: Global,
    game: G,
    session: &Session<G>,
    opening: &Opening,
) -> Result<Session<G>, OnwardFault<G>>
    ensures started { IfOk result (IsStartedFrom G.step opening.now session.now) }
    ensures refused { IfErr result
        (λ fault. IsWhyNotStarted opening.now session.now fault.why) }
{
    let mut game = game;
    let state = match state_at(&mut game, session, opening.end) {
        Ok(state) => state,
        Err(why) => return Err(unstarted(why, game)),
    };
    match Session::start(alloc, game, state, opening.settings) {
        Ok(next) => Ok(next),
        Err(StartFault { why, game, .. }) => Err(unstarted(why, game)),
    }
}

fn unstarted<G: Game>(why: Refusal, game: G) -> OnwardFault<G>
    ensures { result.why ≡ OnwardRefusal.Session why }
{
    let why = OnwardRefusal::Session(why);
    OnwardFault { why, game }
}

fn unopened<G: Game + Drop>(why: OpenRefusal, next: Session<G>) -> OnwardFault<G>
    ensures { result.why ≡ OnwardRefusal.Network why }
{
    let why = OnwardRefusal::Network(why);
    let game = next.into_parts().game;
    OnwardFault { why, game }
}

/// What own players gave past the end of the epoch before is given again, as far as the session takes it. Says whether it took all.
fn play_again<G: Game + Drop>(
    chain: &Chain,
    peer: &Peer,
    past: &Past<Core<G::Snapshot>>,
    session: &mut Session<G>,
    end: u32,
) -> bool
    ensures { ArePlayed (MakesHere G.step) (DeclinesHere G.step) session.old
        (given_again chain.now.terms peer.now.settings.me past.now.session.seen end) session.new result }
{
    let again = Again {
        terms: chain.terms(),
        me: peer.settings().me,
        past: &past.session,
    };
    again.play(session, end)
}
