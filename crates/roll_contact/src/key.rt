//! By what a datagram is sealed.
ghost use Rattle.std.specs.Prelude.{◌≡◌};
ghost use Rattle.roll_contact.specs.Keys.{block_of, greeting_key, key_bytes, padded};
ghost use Rattle.roll_contact.specs.declared.key.TheConstants.{BLOCK};

/// How many bytes SHA-256 takes at once: a key is filled up to so many.
const BLOCK: usize = 64;

/// By what a datagram is sealed: the number that its sender and its receiver share, and the draws of their openings.
#[derive(Clone, Copy, Debug, PartialEq, Eq)]
pub struct Key {
    /// The number of the pair, or of the whole match.
    pub number: u64,
    /// The draw of the sender's opening.
    pub from: u64,
    /// The draw of the receiver's.
    pub to: u64,
}

impl Key {
    /// The key of hellos, which are said before any draw is believed: it has 0 for both.
    pub fn of_hellos(number: u64) -> Key
        ensures { result ≡ greeting_key number }
    {
        Key {
            number,
            from: 0,
            to: 0,
        }
    }

    /// Its 24 bytes, filled up with zeros.
    fn block(&self) -> [u8; BLOCK]
        ensures { result ≡ block_of self.now }
    {
        let mut block = [0; BLOCK];
        block[0..8].copy_from_slice(&self.number.to_be_bytes());
        block[8..16].copy_from_slice(&self.from.to_be_bytes());
        block[16..24].copy_from_slice(&self.to.to_be_bytes());
        block
    }

    /// These, each byte changed by the same bits.
    pub(crate) fn padded(&self, bits: u8) -> [u8; BLOCK]
        ensures { result ≡ padded bits self.now }
    {
        let block = self.block();
        let mut padded = [0; BLOCK];
        for place in 0..BLOCK {
            padded[place] = block[place] ^ bits;
        }
        padded
    }
}
