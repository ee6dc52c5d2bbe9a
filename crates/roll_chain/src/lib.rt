//! A match that goes on in epochs, at one machine: when this epoch is over, how the next one opens, and the step from one to the next:
//! beside a session whose game is played elsewhere, and beside one that has its game.
#![tactic(auto)]

mod again;
mod chain;
mod comers;
mod epochs;
mod going_on_elsewhere;
mod going_on_here;
mod judging;
mod known;
mod laws;
mod onward_refusal;
mod past;
mod plays;
mod rows;
mod seam;
mod seam_refusal;
mod seating;
mod sharing;
mod state;

pub use chain::Chain;
pub use comers::ticket_for;
pub use epochs::Epochs;
pub use going_on_here::go_on;
pub use laws::{it_is_later, of_one_number_one_next, over_stays, they_go_on_at_any_time};
pub use onward_refusal::{OnwardFault, OnwardRefusal};
pub use past::Past;
pub use seam::session_settings;
pub use seam_refusal::SeamRefusal;
