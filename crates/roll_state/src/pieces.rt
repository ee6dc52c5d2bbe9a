//! The pieces of a state that are there.
ghost use Rattle.std.specs.Prelude.{◌≡◌, ◌<◌, ◌≤◌, ◌+◌, ◌-◌, ◌*◌, ◌^◌, ◌++◌, length, take, filter, replicate, false, None, IfOk};
ghost use Rattle.std.specs.List.{range_with_len};
ghost use Rattle.roll_state.specs.Taking.{are_from, emptied, is_from, is_missing, is_there, left_in, with_part};
ghost use Rattle.roll_state.specs.declared.limits.TheConstants.{ASK_LIMIT, PIECE_LIMIT};

use crate::limits::{ASK_LIMIT, PIECE_LIMIT};
use arrayvec::ArrayVec;
use std::alloc::{AllocError, Global};
use std::marker::Model;

/// A state's bytes as far as they are there, the machine that gave each piece, and how many pieces are missing.
#[derive(Drop)]
pub(crate) struct Pieces {
    bytes: Vec<u8>,
    from: Vec<Option<u8>>,
    left: usize,
}

impl Model for Pieces {
    ghost use Rattle.std.specs.Prelude.{◌≡◌, count_by, is_none};
    ghost use Rattle.roll_state.specs.Taking.{Held};

    ghost Value = { Held };

    ghost view = { λ pieces. record { bytes = pieces.bytes.items; from = pieces.from.items } };

    ghost invariant = { λ pieces. pieces.left ≡ count_by is_none pieces.from.items };
}

/// Whether a host gave a piece.
fn is_from(giver: Option<u8>, host: u8) -> bool
    ensures { result ≡ is_from host giver }
{
    match giver {
        Some(by) => by == host,
        None => false,
    }
}

impl Pieces {
    /// So many bytes, in so many pieces, which are all missing.
    pub(crate) fn new(alloc: Global, length: usize, count: usize) -> Result<Pieces, AllocError>
        ensures { IfOk result
            (λ held. held ≡ record { bytes = replicate length 0; from = replicate count None }) }
    {
        let bytes = vec![in alloc; 0; length]?;
        let from = vec![in alloc; None; count]?;
        Ok(Pieces {
            bytes,
            from,
            left: count,
        })
    }

    /// How many are missing.
    pub(crate) fn left(&self) -> usize
        ensures { result ≡ left_in self.now }
    {
        self.left
    }

    /// The bytes, as far as they are there.
    pub(crate) fn bytes(&self) -> &[u8]
        ensures { result.now ≡ self.now.bytes }
    {
        self.bytes.as_slice()
    }

    /// These bytes.
    pub(crate) fn into_bytes(self) -> Vec<u8>
        ensures { result.items ≡ self.bytes }
    {
        self.bytes
    }

    /// Whether a piece is there.
    pub(crate) fn is_there(&self, place: u32) -> bool
        requires { place < length self.now.from }
        ensures { result ≡ is_there self.now place }
    {
        self.from[place as usize].is_some()
    }

    /// A piece that was missing comes of a host.
    pub(crate) fn put(&mut self, host: u8, place: u32, piece: &[u8])
        requires inside { place < length self.old.from }
        requires missing { is_there self.old place ≡ false }
        requires room { PIECE_LIMIT * place + length piece.now ≤ length self.old.bytes }
        ensures { self.new ≡ with_part host place piece.now self.old }
    {
        let start = PIECE_LIMIT * place as usize;
        self.bytes[start..start + piece.len()].copy_from_slice(piece);
        self.from[place as usize] = Some(host);
        self.left -= 1;
    }

    /// All are missing again.
    pub(crate) fn clear(&mut self)
        ensures { self.new ≡ emptied self.old }
    {
        self.from.fill(None);
        self.left = self.from.len();
    }

    /// Whether a host gave all of them.
    pub(crate) fn are_from(&self, host: u8) -> bool
        ensures { result ≡ are_from host self.now }
    {
        self.from.iter().all(|giver| is_from(*giver, host))
    }

    /// Adds the missing ones of a range to others, so many in all at most.
    pub(crate) fn add_missing(
        &self,
        start: usize,
        end: usize,
        most: usize,
        places: &mut ArrayVec<u32, ASK_LIMIT>,
    )
        requires inside { end ≤ length self.now.from }
        requires small { length self.now.from < 2 ^ 32 }
        requires few { most ≤ ASK_LIMIT }
        requires room { length places.old.items ≤ most }
        ensures { places.new.items ≡ take most (places.old.items
            ++ filter (is_missing self.now.from) (range_with_len start (end - start))) }
    {
        for place in start..end {
            if places.len() < most && !self.is_there(place as u32) {
                places.push(place as u32);
            }
        }
    }
}
