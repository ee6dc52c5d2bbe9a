//! The numbers of epochs.
ghost use Rattle.std.specs.Prelude.{◌≡◌, ◌+◌, ◌≤◌, ◌++◌, length};
ghost use Rattle.std.specs.Int.{w32, to_be_bytes};
ghost use Rattle.sha2.specs.Sha256.{sha256};
ghost use Rattle.roll_mesh.specs.declared.limits.TheConstants.{PLAYER_LIMIT};
ghost use Rattle.roll_epoch.specs.Ids.{first_number, hash_of, key_of, leaving_at, leavings, next_id};

use crate::marks::Ending;
use arrayvec::ArrayVec;
use roll_mesh::PLAYER_LIMIT;
use roll_wire::spell_mark;
use sha2::{Digest, Sha256};

/// Bytes of 8 numbers of 32 bits.
type Numbers = ArrayVec<u8, 32>;

/// The number of the first 8 bytes of a digest.
#[tactic(auto, unfolding(crate::specs::Ids::first_number))]
fn first_number(digest: [u8; 32]) -> u64
    ensures { result ≡ first_number digest }
{
    let [a, b, c, d, e, f, g, h, ..] = digest;
    u64::from_be_bytes([a, b, c, d, e, f, g, h])
}

/// The digest of four pieces as one message.
fn digest_of(first: &[u8], second: &[u8], third: &[u8], fourth: &[u8]) -> [u8; 32]
    ensures { result ≡ sha256 (first.now ++ (second.now ++ (third.now ++ fourth.now))) }
{
    let mut hasher = Sha256::new();
    hasher.update(first);
    hasher.update(second);
    hasher.update(third);
    hasher.update(fourth);
    hasher.finalize()
}

/// At how many words of an epoch with this end a player left, or the end if it didn't leave, or later.
fn leaving_at(end: u32, left: Option<u32>) -> u32
    ensures { result ≡ leaving_at end left }
{
    match left {
        None => end,
        Some(at) => at.min(end),
    }
}

fn put(out: &mut Numbers, number: u32)
    requires { length out.old.items + 4 ≤ 32 }
    ensures items { out.new.items ≡ out.old.items ++ to_be_bytes w32 number }
    ensures len { length out.new.items ≡ length out.old.items + 4 }
{
    let [a, b, c, d] = number.to_be_bytes();
    out.push(a);
    out.push(b);
    out.push(c);
    out.push(d);
}

/// The same of all players, as bytes.
fn leavings(end: u32, left: &[Option<u32>; PLAYER_LIMIT]) -> Numbers
    ensures { result.items ≡ leavings end left.now }
{
    let mut out = Numbers::new();
    for at in left {
        put(&mut out, leaving_at(end, *at));
    }
    out
}

/// The number of the epoch after one of this number.
pub(crate) fn next_id(id: u64, ending: &Ending, left: &[Option<u32>; PLAYER_LIMIT]) -> u64
    ensures { result ≡ next_id id ending.now left.now }
{
    first_number(digest_of(
        &id.to_be_bytes(),
        &ending.frame.to_be_bytes(),
        spell_mark(&ending.mark).as_slice(),
        leavings(ending.frame, left).as_slice(),
    ))
}

/// The first 8 bytes of the SHA-256 of two numbers of 8 bytes each, as a number. All have the highest byte first.
pub fn hash_of(one: u64, other: u64) -> u64
    ensures { result ≡ hash_of one other }
{
    first_number(digest_of(&one.to_be_bytes(), &other.to_be_bytes(), &[], &[]))
}

/// The number of a pair of machines by which these seal what they send in an epoch of this number, if the pair's number in the match is
/// this. Nobody sends it.
pub fn key_of(number: u64, id: u64) -> u64
    ensures { result ≡ key_of number id }
{
    if id == 0 {
        return number;
    }
    hash_of(number, id)
}
