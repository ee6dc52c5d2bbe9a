//! Where a cell of the timeline comes from.

/// Where a cell of the timeline comes from.
#[derive(Clone, Copy, Debug, PartialEq, Eq)]
pub enum Source {
    /// The player's word is confirmed, and never changes.
    Confirmed,
    /// The word is a prediction, which the next confirmed word can change.
    Predicted,
    /// The player has left, and this stays so.
    Gone,
}
