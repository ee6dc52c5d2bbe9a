//! Bytes to datagrams.
ghost use Rattle.std.specs.Prelude.{◌≡◌, ◌≤◌, length, Ok, IfOk};
ghost use Rattle.std.specs.Int.{w32};
ghost use Rattle.roll_wire.specs.Reading.{Gives, number_at, repeated};
ghost use Rattle.roll_state.specs.Spelling.{Fits, Message, content, message, part, spelling, wish};
ghost use Rattle.roll_state.specs.Reading.{all_of, bytes_at, content_at, name_at, part_at, wish_at};
ghost use Rattle.roll_state.specs.declared.limits.TheConstants.{ASK_LIMIT, PIECE_LIMIT};

use crate::datagram::{Ask, Piece, StateBody, StateDatagram};
use crate::limits::{ASK, ASK_LIMIT, PIECE, PIECE_LIMIT};
use crate::name::StateName;
use arrayvec::ArrayVec;
use roll_wire::WireFault;
use roll_wire::bytes::{byte_of, envelope_of, magic_of, u32_at, u64_at};

fn digest_of(bytes: &[u8]) -> Result<([u8; 32], &[u8]), WireFault>
    ensures { Gives (λ x. (x.0, x.1.now)) result (bytes_at 32 bytes.now) }
{
    if bytes.len() < 32 {
        return Err(WireFault::Short);
    }
    let (front, rest) = bytes.split_at(32);
    let mut digest = [0; 32];
    digest.copy_from_slice(front);
    Ok((digest, rest))
}

#[tactic(auto, unfolding(crate::specs::Reading::name_at))]
fn name_of(bytes: &[u8]) -> Result<(StateName, &[u8]), WireFault>
    ensures { Gives (λ x. (x.0, x.1.now)) result (name_at bytes.now) }
{
    let (which, rest) = u64_at(bytes)?;
    let (frame, rest) = u32_at(rest)?;
    let (length, rest) = u32_at(rest)?;
    let (digest, rest) = digest_of(rest)?;
    let name = StateName {
        which,
        frame,
        length,
        digest,
    };
    Ok((name, rest))
}

/// Bytes that fit into a piece, as a piece has them.
pub(crate) fn kept(bytes: &[u8]) -> ArrayVec<u8, PIECE_LIMIT>
    requires { length bytes.now ≤ PIECE_LIMIT }
    ensures { result.items ≡ bytes.now }
{
    match ArrayVec::try_from(bytes) {
        Ok(kept) => kept,
        Err(_) => unreachable!(),
    }
}

#[tactic(auto, unfolding(crate::specs::Reading::part_at))]
fn piece_of(bytes: &[u8]) -> Result<(Piece, &[u8]), WireFault>
    ensures { Gives (λ x. (part x.0, x.1.now)) result (part_at bytes.now) }
{
    let (state, rest) = name_of(bytes)?;
    let (place, rest) = u32_at(rest)?;
    let (front, rest) = rest.split_at(PIECE_LIMIT.min(rest.len()));
    let piece = Piece {
        state,
        place,
        bytes: kept(front),
    };
    Ok((piece, rest))
}

fn places_of(count: usize, bytes: &[u8]) -> Result<(ArrayVec<u32, ASK_LIMIT>, &[u8]), WireFault>
    requires { count ≤ ASK_LIMIT }
    ensures { Gives (λ x. (x.0.items, x.1.now)) result (repeated (number_at w32) count bytes.now) }
{
    let mut places = ArrayVec::new();
    let mut rest = bytes;
    for _ in 0..count {
        let (place, after) = u32_at(rest)?;
        places.push(place);
        rest = after;
    }
    Ok((places, rest))
}

#[tactic(auto, unfolding(crate::specs::Reading::wish_at))]
fn ask_of(bytes: &[u8]) -> Result<(Ask, &[u8]), WireFault>
    ensures { Gives (λ x. (wish x.0, x.1.now)) result (wish_at bytes.now) }
{
    let (state, rest) = name_of(bytes)?;
    let (places, rest) = places_of((rest.len() / 4).min(ASK_LIMIT), rest)?;
    Ok((Ask { state, places }, rest))
}

#[tactic(auto, unfolding(crate::specs::Reading::content_at))]
fn body_of(bytes: &[u8]) -> Result<(StateBody, &[u8]), WireFault>
    ensures { Gives (λ x. (content x.0, x.1.now)) result (content_at bytes.now) }
{
    let (kind, rest) = byte_of(bytes)?;
    if kind == PIECE {
        let (piece, rest) = piece_of(rest)?;
        Ok((StateBody::Piece(piece), rest))
    } else if kind == ASK {
        let (ask, rest) = ask_of(rest)?;
        Ok((StateBody::Ask(ask), rest))
    } else {
        Err(WireFault::Kind)
    }
}

#[tactic(auto, unfolding(crate::specs::Reading::all_of))]
fn all(bytes: &[u8]) -> Result<StateDatagram, WireFault>
    ensures { Gives message result (all_of bytes.now) }
{
    let (_magic, rest) = magic_of(bytes)?;
    let (envelope, rest) = envelope_of(rest)?;
    let (body, rest) = body_of(rest)?;
    if !rest.is_empty() {
        return Err(WireFault::Trailing);
    }
    Ok(StateDatagram { envelope, body })
}

/// The datagram that the bytes spell, all of them.
///
/// # Errors
///
/// The first fault from left to right, if they spell none: `Short`, `Magic`, `Kind` or `Trailing`.
pub fn decode(bytes: &[u8]) -> Result<StateDatagram, WireFault>
    // What is read is spelled so.
    ensures found { IfOk result (λ d. Fits (message d) × (bytes.now ≡ spelling (message d))) }
    // What is spelled so is read.
    ensures only { (m : Message) → Fits m → bytes.now ≡ spelling m → Gives message result (Ok m) }
    // Which fault it is.
    ensures exact { Gives message result (all_of bytes.now) }
{
    all(bytes)
}
