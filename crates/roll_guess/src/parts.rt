//! Which bits of a word belong together.
ghost use Rattle.std.specs.Prelude.{◌≡◌, ◌≢◌, ◌<◌, ◌≤◌, IfErr, IfOk, length, bit_and, All, Any};
ghost use Rattle.std.specs.Bool.{OnFalse, OnTrue};
ghost use Rattle.roll_guess.specs.Parts.{bits_left, IsReason, AreApart, AreParts};
ghost use Rattle.roll_guess.specs.declared.limits.TheConstants.{PART_LIMIT};

use crate::limits::PART_LIMIT;
use arrayvec::ArrayVec;
use thiserror::Error;

/// Why masks aren't the parts of a word.
#[derive(Clone, Copy, Debug, PartialEq, Eq, Error)]
pub enum PartsRefusal {
    /// There are more than 32.
    #[error("more than 32 parts")]
    TooMany,
    /// One of them has no bit.
    #[error("a part has no bit")]
    Empty,
    /// Two of them have a bit in common.
    #[error("two parts have a bit in common")]
    Overlap,
}

/// Whether a mask has a bit in common with one of these.
fn meets_any(masks: &[u32], mask: u32) -> bool
    ensures one { OnTrue result (Any (λ m. bit_and m mask ≢ 0) masks.now) }
    ensures none { OnFalse result (All (λ m. AreApart m mask) masks.now) }
{
    for other in masks {
        if *other & mask != 0 {
            return true;
        }
    }
    false
}

/// Which bits of a word belong together: a cross, each button, an axis. The bits that are in no
/// part that the game names belong together as a last one.
#[derive(Debug, Drop)]
pub struct WordParts {
    masks: ArrayVec<u32, PART_LIMIT>,
}

impl WordParts {
    /// The parts with these bits. Without any a word is one part, as a whole.
    ///
    /// # Errors
    ///
    /// What is wrong with the masks: one fault, if there are several.
    pub fn new(masks: &[u32]) -> Result<WordParts, PartsRefusal>
        ensures parts { IfOk result (λ parts.
            (parts.masks.items ≡ masks.now) × AreParts masks.now) }
        ensures refused { IfErr result (IsReason masks.now) }
    {
        let mut parts = ArrayVec::new();
        if masks.len() > PART_LIMIT {
            return Err(PartsRefusal::TooMany);
        }
        for mask in masks {
            if *mask == 0 {
                return Err(PartsRefusal::Empty);
            }
            if meets_any(parts.as_slice(), *mask) {
                return Err(PartsRefusal::Overlap);
            }
            parts.push(*mask);
        }
        Ok(WordParts { masks: parts })
    }

    /// The bits of each part that the game named.
    pub fn masks(&self) -> &[u32]
        ensures masks { result.now ≡ self.now.masks.items }
        ensures few { length result.now ≤ PART_LIMIT }
    {
        self.masks.as_slice()
    }

    /// The bits that are in none of these.
    pub fn rest(&self) -> u32
        ensures { result ≡ bits_left self.now.masks.items }
    {
        let mut left = u32::MAX;
        for mask in self.masks.as_slice() {
            left &= !*mask;
        }
        left
    }
}
