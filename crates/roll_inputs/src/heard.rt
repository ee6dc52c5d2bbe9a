//! What became of a remote word.

/// What became of a remote word.
#[derive(Clone, Copy, Debug, PartialEq, Eq)]
pub enum Heard {
    /// It counts now.
    Taken,
    /// The same word counted already, and nothing changed.
    Repeated,
}
