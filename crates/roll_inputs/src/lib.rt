//! The inputs of a session: confirmed words in rings that are made once, and the timeline that follows from them.
#![tactic(auto)]

mod board;
mod foretold;
mod heard;
mod history;
mod queue;
mod queues;
mod record;
mod remote_word;
mod source;

pub use board::Board;
pub use heard::Heard;
pub use record::Record;
pub use remote_word::{FORETOLD_LIMIT, RemoteWord};
pub use source::Source;
