//! What lies between the network of a match and its session: what is carried for others over lines that may break, and which inputs wait.
//!
//! What goes between two machines is carried by others where the line between them doesn't work. A datagram that was carried is heard
//! by the peer's own `receive`, as one that came straight. So to the laws of `roll_peer` this is one more way on which datagrams are
//! lost, repeated and delayed. That what is carried arrives, tests alone show (`tests/c/carrying.c`).
//!
//! Words of others are held back from a session until another thread has run their frames. To the network the session is the one that
//! has heard them. So what the calls of `roll_peer` and of a relay promise holds of the calls here too, and so do the laws of machines
//! that stay.
#![tactic(auto)]

mod fault;
mod front;
mod heard;
mod held;
mod laws;
mod network;
mod relay;
mod sending;
mod session;
mod words;

pub use fault::HeldFault;
pub use heard::Heard;
pub use held::{HELD_LIMIT, Held, TURN_LIMIT};
pub use laws::{held_words_are_heard, holders_are_one_match, holders_go_on, no_word_waits_longer};
pub use relay::Relay;
pub use roll_session::{RemoteWord, Settling};
