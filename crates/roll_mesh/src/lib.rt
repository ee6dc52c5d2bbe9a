//! Who has what, and who has left, in a match of 2 to 8 machines: what one of them knows, by counts of words alone.
//!
//! A mesh takes in what packets tell, and says what to tell. It has no sockets, no clock and no words, and takes no
//! memory.
#![tactic(auto)]

mod heard;
mod holding_up;
mod laws;
mod limits;
mod machine;
mod mesh;
mod packet;
mod refusal;
mod seat;

pub use heard::Heard;
pub use laws::{
    counts_are_of_words, gone_stays_gone, nobody_is_believed_beyond, of_one_count_one_past,
    owners_have_most, owners_have_what_they_gave, shortened_is_heard_alike, they_agree,
    they_close_alike, they_get_on, they_have_what_was_given, waiters_hold_up_nobody,
    who_stays_has_as_many,
};
pub use limits::{INPUT_LIMIT, MACHINE_LIMIT, PLAYER_LIMIT, limits_are};
pub use machine::Machine;
pub use mesh::Mesh;
pub use packet::{Offer, Packet, View};
pub use refusal::MeshRefusal;
pub use seat::Seat;
