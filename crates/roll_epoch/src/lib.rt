//! Epochs: parts of a match whose machines, owners, delays and threshold stay the same. When one ends, and what the next one is: pure
//! rules, which take no memory.
#![tactic(auto)]

mod faults;
mod id;
mod inputs;
mod laws;
mod limits;
mod marks;
mod owners;
mod seats;
mod terms;

pub use faults::{MarkFault, fault_of};
pub use id::{hash_of, key_of};
pub use laws::{
    ends_are_one, ends_stay, inputs_stay_whole, nobody_loses_a_player, of_one_past_one_end,
    of_one_past_one_next, players_stay, somebody_is_absent,
};
pub use limits::{DELAY_MOST, FIRST_DELAY, FREE, NO_MACHINE, THRESHOLD_MOST, limits_are};
pub use marks::{Ending, Marks, is_void};
pub use terms::Terms;
