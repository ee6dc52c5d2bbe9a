//! Spectators: viewers who follow a session by its settled rows alone.
#![tactic(auto)]

mod feed;
mod laws;
mod limits;
mod ring;
mod spectator;

pub use feed::Feed;
pub use laws::sent_rows_stay;
pub use limits::{RING_ROWS, SPECTATOR_LIMIT};
pub use ring::{RowReceiver, RowSender, open_ring};
pub use spectator::{Spectator, SpectatorFault};
