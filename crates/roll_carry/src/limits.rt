//! The limits of what is carried, each named once.
ghost use Rattle.std.specs.Prelude.{◌≡◌};

use roll_wire::DATAGRAM_LIMIT;

/// How many bytes of a datagram stand before its own fields.
pub const HEAD: usize = 14;
/// With how many letters each datagram begins.
pub(crate) const LETTERS: usize = 4;
/// The kind of maps.
pub const MAP: u8 = 3;
/// The kind of what is carried.
pub const CARRIED: u8 = 4;
/// The most bytes of parcels in one datagram.
pub const AREA_LIMIT: usize = DATAGRAM_LIMIT - HEAD;
/// How many bytes a parcel has beside those of its datagram: they stand in the place of the letters.
pub(crate) const LABEL: usize = 4;
/// The fewest bytes that a datagram has behind its letters.
pub const TAIL_LEAST: usize = HEAD - LETTERS;
/// The most bytes that a datagram that is carried has behind its letters.
pub const TAIL_LIMIT: usize = AREA_LIMIT - LABEL;
/// How many steps a parcel has left at first: so many machines hand it on at most.
pub const STEP_LIMIT: u8 = 7;
/// A way has fewer machines than that between the one that carries first and the one that it leads to.
pub(crate) const BETWEEN_LIMIT: usize = 7;
/// Of so many datagrams one passes a carrier over: so none gets all of what comes in an even rhythm.
pub(crate) const PASS_OVER: usize = 16;
/// A machine that wasn't heard straight for more than so many milliseconds isn't heard straight.
pub const CARRY_AFTER: u32 = 150;
/// In how many turns a map is told in each, after something of it changed.
pub(crate) const TELL_TURNS: u8 = 16;
/// The most datagrams that wait for one machine.
pub(crate) const WAITING_LIMIT: usize = 4;
/// In one turn of so many a map is told in any case.
pub(crate) const TELL_EVERY: usize = 16;
/// In one turn of so many a datagram goes straight by a line that is broken. The number is odd, since hellos and plays may go in turn:
/// with an even one only the one or the other would ever go.
pub(crate) const STRAIGHT_EVERY: usize = 17;
/// In which of them it goes, counted from the machine's own number on.
pub(crate) const STRAIGHT_AT: usize = 8;
/// Where the maker of a datagram stands in it, behind its letters.
pub(crate) const MAKER_AT: usize = 8;

/// The numbers that clauses cite by name.
pub fn limits_are()
    ensures head { HEAD ≡ 14 }
    ensures letters { LETTERS ≡ 4 }
    ensures map { MAP ≡ 3 }
    ensures carried { CARRIED ≡ 4 }
    ensures area_limit { AREA_LIMIT ≡ 1186 }
    ensures label { LABEL ≡ 4 }
    ensures tail_least { TAIL_LEAST ≡ 10 }
    ensures tail_limit { TAIL_LIMIT ≡ 1182 }
    ensures maker_at { MAKER_AT ≡ 8 }
    ensures step_limit { STEP_LIMIT ≡ 7 }
    ensures between_limit { BETWEEN_LIMIT ≡ 7 }
    ensures pass_over { PASS_OVER ≡ 16 }
    ensures carry_after { CARRY_AFTER ≡ 150 }
    ensures tell_turns { TELL_TURNS ≡ 16 }
    ensures tell_every { TELL_EVERY ≡ 16 }
    ensures waiting_limit { WAITING_LIMIT ≡ 4 }
    ensures straight_every { STRAIGHT_EVERY ≡ 17 }
    ensures straight_at { STRAIGHT_AT ≡ 8 }
{}
