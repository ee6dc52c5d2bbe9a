//! What one end of a line between two machines knows of the other: which of its openings is believed, how long it has been silent,
//! how far the two are from one another; the seal of what they send; and which numbers were taken. Takes no memory.
#![tactic(auto)]

mod clock;
mod contact;
mod key;
mod laws;
pub mod seal;
mod terms;
mod window;

pub use clock::{Clock, since};
pub use contact::{Contact, Opening, Stage, TheirClocks};
pub use key::Key;
pub use laws::{
    copies_end_no_silence, heard_is_old, keys_differ, limits_are, none_is_taken_twice,
    only_an_echo_is_believed, refusals_end_no_silence,
};
pub use terms::{Field, Terms};
pub use window::{PLACES, REACH, Window};
