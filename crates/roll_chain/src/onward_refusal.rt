//! Why a match doesn't go on.
use roll_frame::Refusal;
use roll_game::Game;
use roll_peer::OpenRefusal;
use thiserror::Error;

/// Why a match doesn't go on in its next epoch.
#[derive(Clone, Copy, Debug, PartialEq, Eq, Error)]
pub enum OnwardRefusal {
    /// This epoch isn't over.
    #[error("the epoch isn't over")]
    NotOver,
    /// There is no state at the end, or the session of the next epoch doesn't start from it, as if this machine isn't in that epoch.
    #[error("{0}")]
    Session(Refusal),
    /// The network of the next epoch doesn't open.
    #[error("{0}")]
    Network(OpenRefusal),
}

/// Why a match doesn't go on, with the engine of the game that was handed in.
#[derive(Drop)]
pub struct OnwardFault<G: Game> {
    /// Why.
    pub why: OnwardRefusal,
    /// The engine.
    pub game: G,
}
