//! Pictures of rollbacks: what a session knew frame by frame, and what it ran again, as an SVG.
#![tactic(auto)]

mod cells;
mod drawing;
mod escape;
mod heading;
mod legend;
mod page;
mod rolls;
mod scene;
mod tree;
mod view;
mod worst;

pub use drawing::draw;
pub use heading::TITLE_LIMIT;
pub use scene::{Cause, Cell, Lane, Roll, Scene, Sight, Window};
pub use view::FRAME_LIMIT;
