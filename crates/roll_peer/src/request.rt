//! What a main loop asks of a session and of the network beside it, and what it is answered.
use crate::received::{Ignored, Received};
use crate::refusal::PeerRefusal;
use roll_frame::Reply;
use roll_game::Game;
use roll_session::{Reached, Request};

/// What a main loop can ask for.
#[derive(Drop)]
pub enum PeerRequest<G: Game> {
    /// A request of the session.
    Session(Request<G>),
    /// `receive`, of bytes that came by the network.
    Receive { bytes: Vec<u8>, now: u32 },
    /// `poll`
    Poll { now: u32 },
    /// `turn`
    Turn { now: u32 },
}

/// What it is answered.
#[derive(Drop)]
pub enum PeerReply {
    /// What the session answers.
    Session(Reply),
    /// What was heard, or why the bytes were ignored.
    Received(Result<Received, Ignored>),
    /// Whether all was done that a poll does.
    Polled(Result<(), PeerRefusal>),
    /// Where a turn led.
    Turned(Result<Option<Reached>, PeerRefusal>),
}
