//! Datagrams of a match as bytes: one text for each datagram, and no other text is read. Takes no memory.
//!
//! `docs/WIRE.md` has the bytes. Its examples, which another program wrote, are read and written as they stand there:
//! that is tested (`tests/c/wire.c`).
#![tactic(auto)]

pub mod bytes;
mod datagram;
mod fault;
mod laws;
mod limits;
mod reading;
mod writing;

pub use datagram::{
    Body, Clocks, Datagram, Envelope, Head, Hello, Mark, Marked, Newcomer, Play, Settled,
};
pub use fault::WireFault;
pub use laws::{one_text, read_again};
pub use limits::{DATAGRAM_LIMIT, MAGIC, WORD_LIMIT};
pub use reading::{count_of, decode, decode_unmarked};
pub use writing::{encode, has_players, spell_mark};
