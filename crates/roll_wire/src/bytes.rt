//! What datagrams of all kinds are made of: numbers, bytes, masks, and what each begins with. A function whose name ends in `_at` or
//! `_of` reads a field, and gives what it is and the bytes after it; one that begins with `put` writes one behind what is there.
ghost use Rattle.std.specs.Prelude.{◌≡◌, ◌+◌, ◌<◌, ◌≤◌, ◌^◌, ◌++◌, length};
ghost use Rattle.std.specs.Int.{w16, w32, w64};
ghost use Rattle.roll_wire.specs.Spelling.{IsByte, IsEnvelope, IsLong, IsNumber, byte, envelope, long, mask, number};
ghost use Rattle.roll_wire.specs.Reading.{Gives, bits, byte_at, envelope_at, magic_at, number_at};

use crate::datagram::Envelope;
use crate::fault::WireFault;
use crate::limits::MAGIC;
use arrayvec::ArrayVec;
use roll_mesh::PLAYER_LIMIT;

/// A byte. An `Err` is `Short`, as it is of the other numbers.
#[tactic(auto, unfolding(crate::specs::Reading::byte_at))]
pub fn byte_of(bytes: &[u8]) -> Result<(u8, &[u8]), WireFault>
    ensures { Gives (λ x. (x.0, x.1.now)) result (byte_at bytes.now) }
{
    match bytes {
        [] => Err(WireFault::Short),
        [byte, rest @ ..] => Ok((*byte, rest)),
    }
}

/// A number of two bytes, the high one first.
pub fn u16_at(bytes: &[u8]) -> Result<(u16, &[u8]), WireFault>
    ensures { Gives (λ x. (x.0, x.1.now)) result (number_at w16 bytes.now) }
{
    if bytes.len() < 2 {
        return Err(WireFault::Short);
    }
    let (front, rest) = bytes.split_at(2);
    Ok((u16::from_be_bytes([front[0], front[1]]), rest))
}

/// A number of four bytes, the highest first.
pub fn u32_at(bytes: &[u8]) -> Result<(u32, &[u8]), WireFault>
    ensures { Gives (λ x. (x.0, x.1.now)) result (number_at w32 bytes.now) }
{
    if bytes.len() < 4 {
        return Err(WireFault::Short);
    }
    let (front, rest) = bytes.split_at(4);
    let number = u32::from_be_bytes([front[0], front[1], front[2], front[3]]);
    Ok((number, rest))
}

/// A number of eight bytes, the highest first.
pub fn u64_at(bytes: &[u8]) -> Result<(u64, &[u8]), WireFault>
    ensures { Gives (λ x. (x.0, x.1.now)) result (number_at w64 bytes.now) }
{
    if bytes.len() < 8 {
        return Err(WireFault::Short);
    }
    let (front, rest) = bytes.split_at(8);
    let number = u64::from_be_bytes([
        front[0], front[1], front[2], front[3], front[4], front[5], front[6], front[7],
    ]);
    Ok((number, rest))
}

/// Whether each bit of a mask is set, the lowest first: a place for each player, or for each machine.
pub fn bits_of(mask: u8) -> [bool; PLAYER_LIMIT]
    ensures { result ≡ bits 8 mask }
{
    let mut bits = [false; PLAYER_LIMIT];
    let mut left = mask;
    for place in 0..PLAYER_LIMIT {
        bits[place] = left % 2 == 1;
        left /= 2;
    }
    bits
}

/// What each datagram begins with. An `Err` is `Short`, or `Magic` if it is another version's, or nobody's.
#[tactic(auto, unfolding(crate::specs::Reading::magic_at))]
pub fn magic_of(bytes: &[u8]) -> Result<(u32, &[u8]), WireFault>
    ensures { Gives (λ x. (x.0, x.1.now)) result (magic_at bytes.now) }
{
    let (magic, rest) = u32_at(bytes)?;
    if magic != MAGIC {
        return Err(WireFault::Magic);
    }
    Ok((magic, rest))
}

/// The match that a datagram is of, and who sent it.
#[tactic(auto, unfolding(crate::specs::Reading::envelope_at))]
pub fn envelope_of(bytes: &[u8]) -> Result<(Envelope, &[u8]), WireFault>
    ensures { Gives (λ x. (x.0, x.1.now)) result (envelope_at bytes.now) }
{
    let (match_number, rest) = u64_at(bytes)?;
    let (sender, rest) = byte_of(rest)?;
    let envelope = Envelope {
        match_number,
        sender,
    };
    Ok((envelope, rest))
}

/// Bytes as they are.
pub fn put<const N: usize>(out: &mut ArrayVec<u8, N>, bytes: &[u8])
    requires { length out.old.items + length bytes.now ≤ N }
    ensures items { out.new.items ≡ out.old.items ++ bytes.now }
    ensures len { length out.new.items ≡ length out.old.items + length bytes.now }
{
    for byte in bytes {
        out.push(*byte);
    }
}

/// A byte.
pub fn put_byte<const N: usize>(out: &mut ArrayVec<u8, N>, n: u8)
    requires { length out.old.items + 1 ≤ N }
    ensures items { out.new.items ≡ out.old.items ++ byte n }
    ensures len { length out.new.items ≡ length out.old.items + 1 }
    ensures fits { IsByte n }
{
    out.push(n);
}

/// A number of four bytes, the highest first.
pub fn put_u32<const N: usize>(out: &mut ArrayVec<u8, N>, n: u32)
    requires { length out.old.items + 4 ≤ N }
    ensures items { out.new.items ≡ out.old.items ++ number n }
    ensures len { length out.new.items ≡ length out.old.items + 4 }
    ensures fits { IsNumber n }
{
    put(out, &n.to_be_bytes());
}

/// A number of eight bytes, the highest first.
pub fn put_u64<const N: usize>(out: &mut ArrayVec<u8, N>, n: u64)
    requires { length out.old.items + 8 ≤ N }
    ensures items { out.new.items ≡ out.old.items ++ long n }
    ensures len { length out.new.items ≡ length out.old.items + 8 }
    ensures fits { IsLong n }
{
    put(out, &n.to_be_bytes());
}

/// A bit for each place, the lowest for place 0: what `bits_of` reads.
#[tactic(auto, unfolding(crate::specs::Spelling::mask))]
pub fn mask_of(places: &[bool]) -> u8
    requires { length places.now ≤ 8 }
    ensures mask { result ≡ mask places.now }
    ensures below { result < 2 ^ length places.now }
{
    match places {
        [] => 0,
        [is_set, others @ ..] => u8::from(*is_set) + 2 * mask_of(others),
    }
}

/// The match that a datagram is of, and who sends it.
pub fn put_envelope<const N: usize>(out: &mut ArrayVec<u8, N>, e: &Envelope)
    requires { length out.old.items + 9 ≤ N }
    ensures items { out.new.items ≡ out.old.items ++ envelope e.now }
    ensures len { length out.new.items ≡ length out.old.items + 9 }
    ensures fits { IsEnvelope e.now }
{
    put_u64(out, e.match_number);
    put_byte(out, e.sender);
}
