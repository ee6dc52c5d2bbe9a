//! Whether a session would wait for words.
ghost use Rattle.std.specs.Prelude.{◌≡◌, length, min, None, Some, if◌then◌else◌};
ghost use Rattle.std.specs.Option.{option_and_then, option_map_or};
ghost use Rattle.roll_frame.specs.Inputs.{player_at};
ghost use Rattle.roll_frame.specs.Timeline.{front as front_of};
ghost use Rattle.roll_relay.specs.Pressed.{stands_next};

use roll_session::{Settling, Source};

/// Whether a session would refuse local words at its next frame, for its prediction threshold, if it is told no more.
pub(crate) fn stands_next<S: Settling>(session: &S) -> bool
    ensures { result ≡ stands_next (S.seen session.now) }
{
    let threshold = session.settings().threshold;
    u64::from(front(session)) + u64::from(threshold) <= u64::from(session.frame()) + 1
}

/// How many rows are confirmed by all players that are not gone.
fn front<S: Settling>(session: &S) -> u32
    ensures { result ≡ front_of (S.seen session.now).core.players }
{
    let mut least = None;
    for place in 0..session.players() {
        if let Some(count) = count_of(session, place + 1) {
            least = Some(lesser(least, count));
        }
    }
    least.unwrap_or(0)
}

/// How many words of a player are confirmed. None if it is gone, and if there is no such player.
fn count_of<S: Settling>(session: &S, player: u8) -> Option<u32>
    ensures { result ≡ option_and_then (λ p. if p.gone then None else Some (length p.words))
        (player_at (S.seen session.now).core.players player) }
{
    let count = session.confirmed(player)?;
    if session.source(player, count) == Some(Source::Gone) {
        return None;
    }
    Some(count)
}

/// The lesser of a count and the least so far.
fn lesser(least: Option<u32>, count: u32) -> u32
    ensures { result ≡ option_map_or (λ n. min n count) least count }
{
    match least {
        Some(least) => least.min(count),
        None => count,
    }
}
