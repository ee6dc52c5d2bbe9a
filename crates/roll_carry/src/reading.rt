//! Bytes to maps and parcels.
ghost use Rattle.std.specs.Prelude.{◌≡◌, ◌+◌, ◌≤◌, ◌++◌, ◌∷◌, [], List, length, Ok, IfNone, IfOk, IfSome, option_map};
ghost use Rattle.std.specs.Result.{result_err, result_ok};
ghost use Rattle.std.specs.List.{AllByRecursion};
ghost use Rattle.roll_wire.specs.Reading.{Gives, repeated};
ghost use Rattle.roll_mesh.specs.declared.limits.TheConstants.{MACHINE_LIMIT};
ghost use Rattle.roll_carry.specs.Spelling.{Carries, IsParcel, Maps, ParcelValue, Says, area_text, lone, parcel_text, parcel_value};
ghost use Rattle.roll_carry.specs.Reading.{IsArea, area_of, first_of, head_at, hearing_at, map_of, parcel_at, parcels_at, parcels_in, tail_at, tail_of};
ghost use Rattle.roll_carry.specs.Waiting.{made_by};
ghost use Rattle.roll_carry.specs.declared.datagram.Hearing.{Hearing};
ghost use Rattle.roll_carry.specs.declared.limits.TheConstants.{AREA_LIMIT, LABEL, TAIL_LEAST, TAIL_LIMIT};
ghost use Rattle.roll_wire.specs.Spelling.{number};
ghost use Rattle.roll_wire.specs.declared.limits.TheConstants.{MAGIC};

use crate::datagram::{Hearing, Parcel};
use crate::limits::{AREA_LIMIT, CARRIED, LABEL, MAP, TAIL_LEAST, TAIL_LIMIT};
use arrayvec::ArrayVec;
use roll_mesh::MACHINE_LIMIT;
use roll_wire::bytes::{bits_of, byte_of, envelope_of, magic_of, u16_at, u32_at};
use roll_wire::{DATAGRAM_LIMIT, Envelope, WireFault};

/// What a datagram of a kind begins with.
#[tactic(auto, unfolding(crate::specs::Reading::head_at))]
fn head_of(kind: u8, bytes: &[u8]) -> Result<(Envelope, &[u8]), WireFault>
    ensures { Gives (λ x. (x.0, x.1.now)) result (head_at kind bytes.now) }
{
    let (_magic, rest) = magic_of(bytes)?;
    let (envelope, rest) = envelope_of(rest)?;
    let (found, rest) = byte_of(rest)?;
    if found != kind {
        return Err(WireFault::Kind);
    }
    Ok((envelope, rest))
}

#[tactic(auto, unfolding(roll_wire::specs::Reading::mask_at, crate::specs::Reading::hearing_at))]
fn hearing_of(bytes: &[u8]) -> Result<(Hearing, &[u8]), WireFault>
    ensures { Gives (λ x. (x.0, x.1.now)) result (hearing_at bytes.now) }
{
    let (mask, rest) = byte_of(bytes)?;
    let (number, rest) = u32_at(rest)?;
    let hearing = Hearing {
        hears: bits_of(mask),
        number,
    };
    Ok((hearing, rest))
}

fn hearings_of(
    count: usize,
    bytes: &[u8],
) -> Result<(ArrayVec<Hearing, MACHINE_LIMIT>, &[u8]), WireFault>
    requires { count ≤ MACHINE_LIMIT }
    ensures { Gives (λ x. (x.0.items, x.1.now)) result (repeated hearing_at count bytes.now) }
{
    let mut map = ArrayVec::new();
    let mut rest = bytes;
    for _ in 0..count {
        let (hearing, after) = hearing_of(rest)?;
        map.push(hearing);
        rest = after;
    }
    Ok((map, rest))
}

/// So many bytes, if they can be a datagram's behind its letters.
fn tail_in(size: usize, bytes: &[u8]) -> Result<(&[u8], &[u8]), WireFault>
    ensures { Gives (λ x. (x.0.now, x.1.now)) result (tail_at size bytes.now) }
{
    if size < TAIL_LEAST || bytes.len() < size {
        return Err(WireFault::Short);
    }
    Ok(bytes.split_at(size))
}

#[tactic(auto, unfolding(crate::specs::Reading::parcel_at))]
fn parcel_of(bytes: &[u8]) -> Result<(Parcel<'_>, &[u8]), WireFault>
    ensures { Gives (λ x. (parcel_value x.0, x.1.now)) result (parcel_at bytes.now) }
{
    let (to, rest) = byte_of(bytes)?;
    let (steps, rest) = byte_of(rest)?;
    let (size, rest) = u16_at(rest)?;
    let (tail, rest) = tail_in(usize::from(size), rest)?;
    Ok((Parcel { to, steps, tail }, rest))
}

#[tactic(auto, unfolding(crate::specs::Reading::map_of))]
fn map_in(text: &[u8]) -> Result<ArrayVec<Hearing, MACHINE_LIMIT>, WireFault>
    ensures { Gives (λ map. map.items) result (map_of text.now) }
{
    let (_envelope, rest) = head_of(MAP, text)?;
    let (map, rest) = hearings_of((rest.len() / 5).min(MACHINE_LIMIT), rest)?;
    if !rest.is_empty() {
        return Err(WireFault::Trailing);
    }
    Ok(map)
}

/// Whether the bytes are parcels to the end, and else the first fault.
fn check_parcels(area: &[u8]) -> Result<(), WireFault>
    ensures { result_err result ≡ result_err (parcels_at area.now) }
{
    let mut rest = area;
    while !rest.is_empty() {
        let (_parcel, after) = parcel_of(rest)?;
        rest = after;
    }
    Ok(())
}

#[tactic(auto, unfolding(crate::specs::Reading::parcels_of))]
fn area_in(text: &[u8]) -> Result<&[u8], WireFault>
    ensures { Gives (λ area. area.now) result (area_of text.now) }
{
    let (_envelope, rest) = head_of(CARRIED, text)?;
    let (area, rest) = rest.split_at(AREA_LIMIT.min(rest.len()));
    check_parcels(area)?;
    if !rest.is_empty() {
        return Err(WireFault::Trailing);
    }
    Ok(area)
}

/// The map that the bytes spell, all of them: a datagram as it was before it was sealed.
///
/// # Errors
///
/// The first fault from left to right, if they spell none: `Short`, `Magic`, `Kind` or `Trailing`.
pub fn read_map(text: &[u8]) -> Result<ArrayVec<Hearing, MACHINE_LIMIT>, WireFault>
    // What is read is spelled so.
    ensures found { IfOk result (λ map. Says text.now (Maps map.items)) }
    // What is spelled so is read.
    ensures only { (map : List Hearing) → Says text.now (Maps map)
        → Gives (λ read. read.items) result (Ok map) }
    // Which fault it is.
    ensures exact { Gives (λ map. map.items) result (map_of text.now) }
{
    map_in(text)
}

/// The bytes of the parcels that the bytes spell, all of them: a datagram as it was before it was sealed. `first_parcel` takes one
/// parcel after the other from them.
///
/// # Errors
///
/// The first fault from left to right, if they spell none: `Short`, `Magic`, `Kind` or `Trailing`. A parcel whose datagram has
/// fewer than 14 bytes with its letters is `Short`.
pub fn read_parcels(text: &[u8]) -> Result<&[u8], WireFault>
    // What is read is spelled so.
    ensures found { IfOk result (λ area. (parcels : List ParcelValue)
        × (Says text.now (Carries parcels) × (area.now ≡ area_text parcels))) }
    ensures few { IfOk result (λ area. length area.now ≤ AREA_LIMIT) }
    // They are those that `first_parcel` takes.
    ensures area { IfOk result (λ area. IsArea area.now) }
    ensures says { IfOk result (λ area. Says text.now (Carries (parcels_in area.now))) }
    // What is spelled so is read.
    ensures only { (parcels : List ParcelValue) → Says text.now (Carries parcels)
        → Gives (λ area. area.now) result (Ok (area_text parcels)) }
    // Which fault it is.
    ensures exact { Gives (λ area. area.now) result (area_of text.now) }
{
    area_in(text)
}

/// The first parcel of those that were read, and the bytes of the others. None if there is none.
pub fn first_parcel(area: &[u8]) -> Option<(Parcel<'_>, &[u8])>
    requires { length area.now ≤ AREA_LIMIT }
    ensures found { IfSome result (λ x. IsParcel (parcel_value x.0)
        × (area.now ≡ parcel_text (parcel_value x.0) ++ x.1.now)) }
    ensures len { IfSome result (λ x. length area.now
        ≡ LABEL + length x.0.tail.now + length x.1.now) }
    // So one after the other is taken.
    ensures only { (parcels : List ParcelValue) → AllByRecursion IsParcel parcels
        → area.now ≡ area_text parcels
        → option_map (λ x. (parcel_value x.0, x.1.now)) result ≡ first_of parcels }
    ensures exact { option_map (λ x. (parcel_value x.0, x.1.now)) result
        ≡ result_ok (parcel_at area.now) }
    ensures next { IfSome result (λ x. parcels_in area.now
        ≡ parcel_value x.0 ∷ parcels_in x.1.now) }
    ensures none { IfNone result (parcels_in area.now ≡ []) }
{
    parcel_of(area).ok()
}

/// How many bytes the parcels of one maker have among those that were read.
pub(crate) fn made_by(area: &[u8], maker: u8) -> usize
    requires { length area.now ≤ AREA_LIMIT }
    ensures value { result ≡ made_by maker (parcels_in area.now) }
    ensures few { result ≤ length area.now }
{
    let Some((parcel, others)) = first_parcel(area) else {
        return 0;
    };
    let more = made_by(others, maker);
    if parcel.maker() == maker {
        LABEL + parcel.tail.len() + more
    } else {
        more
    }
}

/// The datagram of the only parcel of those that were read, if it goes straight.
pub fn lone_datagram(area: &[u8]) -> Option<ArrayVec<u8, DATAGRAM_LIMIT>>
    requires { length area.now ≤ AREA_LIMIT }
    ensures { (parcels : List ParcelValue) → AllByRecursion IsParcel parcels
        → area.now ≡ area_text parcels
        → option_map (λ bytes. bytes.items) result ≡ lone parcels }
{
    let (parcel, others) = first_parcel(area)?;
    if parcel.steps == 0 && others.is_empty() {
        Some(parcel.datagram())
    } else {
        None
    }
}

/// What is carried of a datagram: all but the letters that each begins with. None if it doesn't begin so, or has no room beside what
/// else a datagram has that carries it.
pub fn tail_of(bytes: &[u8]) -> Option<&[u8]>
    ensures exact { option_map (λ tail. tail.now) result ≡ tail_of bytes.now }
    // With its letters it is the datagram again.
    ensures whole { IfSome result (λ tail. bytes.now ≡ number MAGIC ++ tail.now) }
    ensures least { IfSome result (λ tail. TAIL_LEAST ≤ length tail.now) }
    ensures most { IfSome result (λ tail. length tail.now ≤ TAIL_LIMIT) }
{
    match magic_of(bytes) {
        Ok((_magic, tail)) if TAIL_LEAST <= tail.len() && tail.len() <= TAIL_LIMIT => Some(tail),
        _ => None,
    }
}
