//! What a sync test says.

/// What a sync test says of a row.
#[derive(Clone, Copy, Debug, PartialEq, Eq)]
pub enum Verdict {
    /// The row was run once. It is run again with the last row that makes the frames whole.
    Run,
    /// So many frames came out the same twice, in all.
    Verified(u32),
    /// The first frame, counted from 0, that came out different. The test is stopped. No `Game` comes to this, by the
    /// law `never_diverges`.
    Mismatch(u32),
}
