//! What is read of a session, and written.
ghost use Rattle.std.specs.Prelude.{◌≡◌, length, option_and_then, option_map, pos, slice_get, None, Some, MatchOption, if◌then◌else◌};
ghost use Rattle.roll_frame.specs.Inputs.{player_at};
ghost use Rattle.fazgrond_c.specs.Kinds.{entry_out};

use crate::calls::NOTHING;
use crate::kinds::EntryOut;
use roll_requests::Elsewhere;
use roll_session::{Log, Networked};

/// An entry of a log, if there is one at this place.
pub fn entry_at(log: &Log, place: usize) -> Option<EntryOut>
    ensures { result ≡ option_map entry_out (slice_get log.now.entries place) }
{
    let entry = log.get(place)?;
    Some(EntryOut::of(&entry))
}

/// The frame in which a local player's next word counts.
pub fn input_frame(session: &Elsewhere, player: u8) -> Option<u32>
    ensures { result ≡ option_and_then (λ p. if p.local then Some (length p.words) else None)
        (player_at session.now.seen.core.players player) }
{
    if session.is_local(player) {
        session.confirmed(player)
    } else {
        None
    }
}

/// Writes a number, if there is one.
pub fn written(out: &mut u32, number: Option<u32>) -> i32
    ensures { MatchOption number ((result ≡ pos 203) × (out.new ≡ out.old))
        (λ there. (result ≡ pos 0) × (out.new ≡ there)) }
{
    match number {
        Some(number) => {
            *out = number;
            0
        }
        None => NOTHING,
    }
}
