//! Claims of rolls: whether one is right, and their texts.
#![tactic(auto)]

mod checking;
mod laws;
mod lines;
mod parts;
mod reading;
mod writing;

pub use checking::{Flaw, check};
pub use laws::{one_claim_a_text, texts_are_short};
pub use lines::named_number;
pub use parts::read_row;
pub use reading::read;
pub use writing::write;
