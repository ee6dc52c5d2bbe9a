//! What machines tell of their lines, and what they carry for one another.
ghost use Rattle.std.specs.Prelude.{◌≡◌, ◌≤◌, length};
ghost use Rattle.roll_carry.specs.Spelling.{datagram_of, maker_of, parcel_value};
ghost use Rattle.roll_carry.specs.declared.limits.TheConstants.{TAIL_LEAST, TAIL_LIMIT};

use crate::limits::MAKER_AT;
use arrayvec::ArrayVec;
use roll_mesh::MACHINE_LIMIT;
use roll_wire::bytes::put;
use roll_wire::{DATAGRAM_LIMIT, MAGIC};

/// Whom a machine hears straight, as it said: what it hears of another's own sending, and not by others.
#[derive(Clone, Copy, Debug, Default, PartialEq, Eq)]
pub struct Hearing {
    /// Whether it hears each machine, machine 0 first. It hears itself.
    pub hears: [bool; MACHINE_LIMIT],
    /// It rises by one whenever that changes, and begins anew after 2^32.
    pub number: u32,
}

/// A datagram on its way to a machine: by others, or with what others sent to that one.
#[derive(Clone, Copy, Debug)]
pub struct Parcel<'a> {
    /// For which machine it is.
    pub to: u8,
    /// How many machines may still hand it on; 0 if it goes straight.
    pub steps: u8,
    /// The datagram, as its sender sealed it for that machine, without the letters that each datagram begins with.
    pub tail: &'a [u8],
}

impl Parcel<'_> {
    /// The machine that made the datagram, as it says itself.
    pub fn maker(&self) -> u8
        requires { TAIL_LEAST ≤ length self.now.tail.now }
        ensures { result ≡ maker_of (parcel_value self.now) }
    {
        self.tail[MAKER_AT]
    }

    /// The whole datagram.
    pub fn datagram(&self) -> ArrayVec<u8, DATAGRAM_LIMIT>
        requires { length self.now.tail.now ≤ TAIL_LIMIT }
        ensures { result.items ≡ datagram_of (parcel_value self.now) }
    {
        let mut out = ArrayVec::new();
        put(&mut out, &MAGIC.to_be_bytes());
        put(&mut out, self.tail);
        out
    }
}
