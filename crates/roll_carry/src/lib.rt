//! Whole datagrams that machines of a match carry for one another, where a line between two of them is broken.
#![tactic(auto)]

mod carrier;
mod choosing;
mod datagram;
mod handing;
mod laws;
mod limits;
mod map;
mod outbox;
mod reading;
mod ways;
mod writing;

pub use carrier::Carrier;
pub use datagram::{Hearing, Parcel};
pub use laws::{nobody_is_crowded_out, one_text, quiet_are_taken, shares_are_kept, ways_are_found};
pub use limits::{
    AREA_LIMIT, CARRIED, CARRY_AFTER, HEAD, MAP, STEP_LIMIT, TAIL_LEAST, TAIL_LIMIT, limits_are,
};
pub use map::LineMap;
pub use reading::{first_parcel, lone_datagram, read_map, read_parcels, tail_of};
pub use writing::{say_map, say_parcels};
