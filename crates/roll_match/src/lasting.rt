//! Sessions beside which a match goes on in epochs.
ghost use Rattle.std.specs.Prelude.{◌≡◌, IfErr, IfOk, OnErr, Option};
ghost use Rattle.roll_match.specs.Turning.{why_over, GoesOnOrNot};
ghost use Rattle.roll_chain.specs.Epochs.{judged_in};

use roll_chain::{Epochs, OnwardFault, OnwardRefusal, SeamRefusal};
use roll_game::Game;
use roll_peer::Peer;
use roll_relay::Relay;
use roll_requests::{Closing, Elsewhere};
use roll_session::{Core, Networked, Session, Settling};
use std::alloc::Global;

/// A session beside which a match goes on in epochs: one that has its game, or one whose game is elsewhere.
pub trait Lasting: Settling {
    ghost use Rattle.roll_carry.specs.Carrying.{Carrying};
    ghost use Rattle.roll_peer.specs.Peered.{Peered};
    ghost use Rattle.roll_chain.specs.declared.epochs.Epochs.{Epochs};
    ghost use Rattle.roll_chain.specs.declared.seam_refusal.SeamRefusal.{SeamRefusal};

    /// What it is in the epoch before: a session without its game.
    type Past: Networked + Drop;
    /// What the session of the next epoch needs: an engine of the game, or nothing where the game is elsewhere.
    type Engine: Drop;
    /// What the end of an epoch leaves to the program: the engine that played it, or requests that the game is to carry out before all
    /// later ones.
    type Last: Drop;

    /// The epoch was over, and the next one has begun.
    ghost has_gone_on: { (old new : Epochs Self.Past) → (peer next : Peered)
        → (relay carrying : Carrying) → (session after : Self) → Self.Last → Type 0 };

    /// The epoch isn't over, or why the next one doesn't begin.
    ghost has_not_gone_on: { (old : Epochs Self.Past) → (peer : Peered) → (session : Self)
        → Option SeamRefusal → Type 0 };

    /// Goes on in the next epoch, if this one is over. Marks are judged first.
    ///
    /// # Errors
    ///
    /// If it isn't over, or the next one doesn't open: the engine, and why, if it is over. Nothing else changed then.
    fn go_on(
        &mut self,
        alloc: Global,
        epochs: &mut Epochs<Self::Past>,
        peer: &mut Peer,
        relay: &mut Relay,
        engine: Self::Engine,
    ) -> Result<Self::Last, (Self::Engine, Option<SeamRefusal>)>
        ensures gone { IfOk result (λ last. has_gone_on epochs.old epochs.new
            (judged_in epochs.old peer.old) peer.new relay.old relay.new self.old self.new last) }
        ensures why { IfErr result
            (λ it. has_not_gone_on epochs.old (judged_in epochs.old peer.old) self.old it.1) }
        ensures epochs { OnErr result (epochs.new ≡ epochs.old) }
        ensures peer { OnErr result (peer.new ≡ judged_in epochs.old peer.old) }
        ensures relay { OnErr result (relay.new ≡ relay.old) }
        ensures unchanged { OnErr result (self.new ≡ self.old) };
}

impl<G: Game + Drop> Lasting for Session<G> {
    ghost use Rattle.roll_match.specs.Turning.{StaysHere};
    ghost use Rattle.roll_chain.specs.GoingOnHere.{HasGoneOn};

    type Past = Core<G::Snapshot>;

    type Engine = G;

    type Last = G;

    ghost has_gone_on = { λ old new peer next relay carrying session after last.
        HasGoneOn G.step old new peer next relay carrying session after × (G.call_counts last ≡ session.counts) };

    ghost has_not_gone_on = { λ old peer session why. StaysHere G.step old peer session why };

    fn go_on(
        &mut self,
        alloc: Global,
        epochs: &mut Epochs<Core<G::Snapshot>>,
        peer: &mut Peer,
        relay: &mut Relay,
        engine: G,
    ) -> Result<G, (G, Option<SeamRefusal>)> {
        match roll_chain::go_on(alloc, epochs, engine, peer, relay, self) {
            Ok(engine) => Ok(engine),
            Err(OnwardFault { game, why }) => Err((game, why_over(why))),
        }
    }
}

impl Lasting for Elsewhere {
    ghost use Rattle.roll_match.specs.Turning.{StaysElsewhere};
    ghost use Rattle.roll_chain.specs.Epochs.{HasGoneOn};

    type Past = Core<u32>;

    type Engine = ();

    type Last = Closing;

    ghost has_gone_on = { λ old new peer next relay carrying session after last.
        HasGoneOn old new peer next relay carrying session after last };

    ghost has_not_gone_on = { λ old peer session why. StaysElsewhere old peer session why };

    fn go_on(
        &mut self,
        alloc: Global,
        epochs: &mut Epochs<Core<u32>>,
        peer: &mut Peer,
        relay: &mut Relay,
        engine: (),
    ) -> Result<Closing, ((), Option<SeamRefusal>)> {
        match epochs.go_on(alloc, peer, relay, self) {
            Ok(Some(closing)) => Ok(closing),
            Ok(None) => Err((engine, None)),
            Err(why) => Err((engine, Some(why))),
        }
    }
}

/// Why a match that is over doesn't go on.
fn why_over(why: OnwardRefusal) -> Option<SeamRefusal>
    ensures { result ≡ why_over why }
{
    match why {
        OnwardRefusal::NotOver => None,
        OnwardRefusal::Session(why) => Some(SeamRefusal::Session(why)),
        OnwardRefusal::Network(why) => Some(SeamRefusal::Network(why)),
    }
}

/// Goes on in the next epoch if this one is over, and what the session of the next one needs is there.
pub(crate) fn go_on_with<S: Lasting>(
    alloc: Global,
    session: &mut S,
    epochs: &mut Epochs<S::Past>,
    peer: &mut Peer,
    relay: &mut Relay,
    engine: &mut Option<S::Engine>,
) -> (Option<S::Last>, Option<SeamRefusal>)
    ensures { GoesOnOrNot S.has_gone_on S.has_not_gone_on epochs.old epochs.new peer.old peer.new
        relay.old relay.new session.old session.new engine.old engine.new result.0 result.1 }
{
    match engine.take() {
        Some(given) => match session.go_on(alloc, epochs, peer, relay, given) {
            Ok(last) => (Some(last), None),
            Err((given, why)) => {
                *engine = Some(given);
                (None, why)
            }
        },
        None => (None, None),
    }
}
