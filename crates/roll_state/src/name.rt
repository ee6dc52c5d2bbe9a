//! What a state is called.
ghost use Rattle.std.specs.Prelude.{◌≡◌, IfSome, IfNone, ◌<◌, ◌≤◌, ◌^◌, ◌⊎◌, length, take};
ghost use Rattle.std.specs.Int.{w64, from_be_bytes};
ghost use Rattle.sha2.specs.Sha256.{sha256};
ghost use Rattle.roll_state.specs.Spelling.{digest_with};
ghost use Rattle.roll_state.specs.States.{count_of, is_same, name_of, size_of, unknown, IsNameOf};

use crate::limits::PIECE_LIMIT;
use crate::writing::put_name;
use arrayvec::ArrayVec;
use roll_wire::bytes::put_u64;
use sha2::{Digest, Sha256};

/// What a state is called: which one it is, how many bytes it has, and their digest.
#[derive(Clone, Copy, Debug)]
pub struct StateName {
    /// Which state it is: a number of the program's choice for each that the machines exchange.
    pub which: u64,
    /// The frame that it is of, 0 before the match.
    pub frame: u32,
    /// How many bytes it has; 0 if that isn't known yet.
    pub length: u32,
    /// The SHA-256 digest of its bytes; zeros if that isn't known yet.
    pub digest: [u8; 32],
}

/// The digest of a state's bytes.
pub(crate) fn digest_of(bytes: &[u8]) -> [u8; 32]
    ensures { result ≡ sha256 bytes.now }
{
    Sha256::digest(bytes)
}

/// The number of its first 8 bytes.
fn first_number(digest: [u8; 32]) -> u64
    ensures { result ≡ from_be_bytes w64 (take 8 digest) }
{
    let [a, b, c, d, e, f, g, h, ..] = digest;
    u64::from_be_bytes([a, b, c, d, e, f, g, h])
}

impl StateName {
    /// The name of these bytes. None if there are none, or 2^32 or more.
    pub fn of(which: u64, frame: u32, bytes: &[u8]) -> Option<StateName>
        ensures named { IfSome result (λ name. name ≡ name_of which frame bytes.now) }
        ensures right { IfSome result (λ name. IsNameOf name bytes.now) }
        ensures none { IfNone result ((length bytes.now ≡ 0) ⊎ (2 ^ 32 ≤ length bytes.now)) }
    {
        if bytes.is_empty() || bytes.len() > u32::MAX as usize {
            return None;
        }
        Some(StateName {
            which,
            frame,
            length: bytes.len() as u32,
            digest: digest_of(bytes),
        })
    }

    /// The name by which a state is asked for whose bytes nothing is known of.
    pub fn unknown(which: u64, frame: u32) -> StateName
        ensures { result ≡ unknown which frame }
    {
        StateName {
            which,
            frame,
            length: 0,
            digest: [0; 32],
        }
    }

    /// A digest of 64 bits that has this state in it, beside what another has: so a match's own digest is to have each state that
    /// its machines have exchanged.
    pub fn digest_with(&self, digest: u64) -> u64
        ensures { result ≡ digest_with self.now digest }
    {
        let mut text = ArrayVec::new();
        put_u64(&mut text, digest);
        put_name(&mut text, self);
        first_number(digest_of(&text))
    }

    /// How many pieces it has.
    pub fn count(&self) -> usize
        ensures count { result ≡ count_of self.now.length }
        ensures small { result < 2 ^ 32 }
    {
        (self.length as usize).div_ceil(PIECE_LIMIT)
    }

    /// How many bytes the piece at a place has: none past the end.
    pub(crate) fn size(&self, place: u32) -> usize
        ensures { result ≡ size_of self.now.length place }
    {
        let start = PIECE_LIMIT * place as usize;
        (self.length as usize)
            .saturating_sub(start)
            .min(PIECE_LIMIT)
    }

    /// Whether two names are the same.
    pub(crate) fn is_same(&self, other: &StateName) -> bool
        ensures { result ≡ is_same self.now other.now }
    {
        self.which == other.which
            && self.frame == other.frame
            && self.length == other.length
            && self.digest == other.digest
    }
}
