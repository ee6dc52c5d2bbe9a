//! A game's state at a frame of a session.
ghost use Rattle.std.specs.Prelude.{◌≡◌, ◌-◌, true, IfErr, IfOk, OnOk};
ghost use Rattle.roll_frame.specs.Core.{settled};
ghost use Rattle.roll_game.specs.Counts.{counted};
ghost use Rattle.roll_game.specs.declared.counts.Call.TheVariants.{Load, Save};
ghost use Rattle.roll_chain.specs.States.{advanced, value_at, IsWhyNoState};
ghost use Rattle.roll_peer.specs.Known.{IsKnownTo};

use crate::known::known_row;
use roll_frame::Refusal;
use roll_game::Game;
use roll_session::Session;

/// The state at a frame, from the settled one on, if all rows before it are known: the serial run over those rows, from the session's
/// opening. An engine of the game runs it from the settled state; it is another than the session's own, which stays as
/// it is. It loads once, advances once for each row from there on, and saves once.
///
/// # Errors
///
/// `InvalidRequest` if the frame lies before the settled one; `Gap` if a word before the frame hasn't come; `NoMemory` if the game
/// refuses.
pub(crate) fn state_at<G: Game>(
    game: &mut G,
    session: &Session<G>,
    frame: u32,
) -> Result<G::Snapshot, Refusal>
    ensures state { IfOk result
        (λ state. G.snapshot_value state ≡ value_at G.step session.now frame) }
    ensures known { OnOk result (IsKnownTo session.now frame) }
    ensures counts { OnOk result (G.call_counts game.new ≡ counted Save true
        (advanced (frame - settled session.now.core)
        (counted Load true (G.call_counts game.old)))) }
    ensures refused { IfErr result (IsWhyNoState session.now.core frame) }
{
    session.laws();
    let settled = session.settled();
    if frame < settled {
        return Err(Refusal::InvalidRequest);
    }
    let mut state = game.load(session.settled_state())?;
    for next in settled..frame {
        let Some(row) = known_row(session, next) else {
            return Err(Refusal::Gap);
        };
        game.advance(&mut state, &row)?;
    }
    Ok(game.save(&state)?)
}
