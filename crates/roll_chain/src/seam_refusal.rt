//! Why a match doesn't go on.
use roll_frame::Refusal;
use roll_peer::OpenRefusal;
use thiserror::Error;

/// Why a match doesn't go on in its next epoch.
#[derive(Clone, Copy, Debug, PartialEq, Eq, Error)]
pub enum SeamRefusal {
    /// Jobs are out: whoever runs one may still write to its slots, which are those of the next epoch's states.
    #[error("jobs are out")]
    JobsOut,
    /// The session of the next epoch doesn't start, as if this machine isn't in that epoch, or that of this one can't end where the epoch
    /// does, since it has settled more.
    #[error("{0}")]
    Session(Refusal),
    /// The network of the next epoch doesn't open.
    #[error("{0}")]
    Network(OpenRefusal),
}
