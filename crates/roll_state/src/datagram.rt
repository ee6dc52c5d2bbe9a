//! What the two ends of a state's transfer send each other.
use crate::limits::{ASK_LIMIT, PIECE_LIMIT};
use crate::name::StateName;
use arrayvec::ArrayVec;
use roll_wire::Envelope;

/// The bytes of a state at a place.
#[derive(Debug, Drop)]
pub struct Piece {
    /// The state.
    pub state: StateName,
    /// Which of its pieces it is, from 0.
    pub place: u32,
    /// Its bytes.
    pub bytes: ArrayVec<u8, PIECE_LIMIT>,
}

/// Which pieces of a state are asked for.
#[derive(Debug, Drop)]
pub struct Ask {
    /// The state; `StateName::unknown` if its length and its digest aren't known.
    pub state: StateName,
    /// The pieces, from 0.
    pub places: ArrayVec<u32, ASK_LIMIT>,
}

/// What is in a datagram of states.
#[derive(Debug, Drop)]
pub enum StateBody {
    /// Kind 5.
    Piece(Piece),
    /// Kind 6.
    Ask(Ask),
}

/// A piece or an ask, 1,200 bytes at most.
#[derive(Debug, Drop)]
pub struct StateDatagram {
    /// The number by which it is sealed, and the machine that sent it.
    pub envelope: Envelope,
    /// What is in it.
    pub body: StateBody,
}
