//! States of a game over a match's own sockets: one machine gives a state's bytes, others take them, by datagrams that may be
//! lost, late, double and in any order.
#![tactic(auto)]

mod datagram;
mod giver;
mod heard;
mod laws;
mod limits;
mod name;
mod pieces;
mod reading;
mod refusal;
mod sealing;
mod taker;
mod writing;

pub use datagram::{Ask, Piece, StateBody, StateDatagram};
pub use giver::Giver;
pub use heard::Heard;
pub use laws::{
    givers_send_what_is_asked, one_text, read_again, takers_ask_for_what_is_missing,
    takers_hold_what_was_given,
};
pub use limits::{ASK_LIMIT, PIECE_LIMIT, limits_are};
pub use name::StateName;
pub use reading::decode;
pub use refusal::{StateFault, StateRefusal};
pub use roll_contact::Key;
pub use sealing::{open, say, sender_of};
pub use taker::Taker;
pub use writing::encode;
