//! Spectators over a network: a viewer hears the settled rows of a match from one of its machines, by datagrams that may be
//! lost, late, double and in any order.
#![tactic(auto)]

mod hosting;
mod laws;
mod line;
mod queue;
mod refusal;
mod rows;
mod settings;
mod telling;
mod viewer;

pub use hosting::ViewerLine;
pub use laws::viewers_see_settled_rows;
pub use queue::WAITING_LIMIT;
pub use refusal::{LineFault, LineRefusal};
pub use settings::LineSettings;
pub use viewer::Viewer;
