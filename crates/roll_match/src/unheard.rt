//! Why a call of a match isn't carried out.
use roll_epoch::MarkFault;
use roll_peer::{Ignored, MarkRefusal};
use roll_relay::HeldFault;
use thiserror::Error;

/// Why a match doesn't hear bytes that came by the network.
#[derive(Clone, Copy, Debug, PartialEq, Eq, Error)]
pub enum Unheard {
    /// They are no datagram that this machine hears.
    #[error("{0}")]
    Ignored(Ignored),
    /// The session has no room for the inputs that wait for it. If the datagram comes again later, it may be heard.
    #[error("{0}")]
    Held(HeldFault),
}

/// Why a match puts no mark on an input.
#[derive(Clone, Copy, Debug, PartialEq, Eq, Error)]
pub enum Unmarked {
    /// All machines would find it void.
    #[error("all machines would find the mark void")]
    Void(MarkFault),
    /// The player takes no mark.
    #[error("{0}")]
    Refused(MarkRefusal),
    /// The session has no room for the inputs that wait for it.
    #[error("{0}")]
    Held(HeldFault),
}
