//! A plan.
use roll_frame::Differ;

/// Where a roll goes, and where it starts.
#[derive(Debug, Drop)]
pub struct Plan {
    /// The frame that it goes to.
    pub to: u32,
    /// The length of the longest kept path on its way, from frame 0: it starts there.
    pub from: u32,
    /// How many frames it advances the game.
    pub rerun: u32,
    /// For each kept path that it passes over, in their order, the first frame and the least player there where the
    /// path differs from the timeline.
    pub differs: Vec<Differ>,
}
