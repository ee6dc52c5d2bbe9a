//! What comes of a piece.

/// What comes of a piece that a taker hears.
#[derive(Clone, Copy, Debug, PartialEq, Eq)]
pub enum Heard {
    /// It was there already: nothing is changed.
    Again,
    /// It is there now, and others are missing.
    Taken,
    /// It was the last one, and the state has its digest.
    Whole,
    /// It was the last one, and the state has another digest, so that all pieces are missing again. If one machine gave them all,
    /// it is named, and no piece of it is taken any more. Else the pieces of who gave the last one are taken alone from now on.
    Wrong(Option<u8>),
}
