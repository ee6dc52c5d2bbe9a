//! The limits of sessions and the numbers of the advice, each named once. A profile has its own at `Profile`.
ghost use Rattle.std.specs.Prelude.{◌≡◌, pos};

/// The most players of any session.
pub const PLAYER_LIMIT: usize = 8;
/// The longest input delay, in frames.
pub const DELAY_LIMIT: u32 = 8;
/// The most frames of a session.
pub const FRAME_LIMIT: u32 = 1_048_576;
/// The most entries of a log.
pub const LOG_LIMIT: u32 = 16_777_216;
/// The most confirmed words of a player past the settled frame.
pub const QUEUE_LIMIT: usize = 128;
/// The most rows of a path past the settled frame, and of a guess.
pub const PATH_LIMIT: usize = 24;
/// The most rows of a branch.
pub const BRANCH_LIMIT: usize = 8;
/// The most frames that a sync test verifies at once.
pub const SYNC_TEST_LIMIT: usize = 8;
/// The most states that are kept while a roll runs.
pub const TREE_LIMIT: usize = 256;
/// The most pairs of advantages that the advice looks back on.
pub const ADVICE_WINDOW: usize = 40;
/// The most frames by which an advantage counts, in either direction.
pub const ADVANTAGE_LIMIT: i32 = 120;
/// The least wait, in frames, that is advised: a shorter one counts as none.
pub const LEAST_ADVICE: u32 = 3;
/// The longest wait, in frames, that is advised.
pub const MOST_ADVICE: u32 = 9;

/// The numbers that clauses cite by name.
pub fn limits_are()
    ensures players { PLAYER_LIMIT ≡ 8 }
    ensures delay { DELAY_LIMIT ≡ 8 }
    ensures frames { FRAME_LIMIT ≡ 1_048_576 }
    ensures log { LOG_LIMIT ≡ 16_777_216 }
    ensures queue { QUEUE_LIMIT ≡ 128 }
    ensures path { PATH_LIMIT ≡ 24 }
    ensures branch { BRANCH_LIMIT ≡ 8 }
    ensures sync_test { SYNC_TEST_LIMIT ≡ 8 }
    ensures tree { TREE_LIMIT ≡ 256 }
    ensures window { ADVICE_WINDOW ≡ 40 }
    ensures advantage { ADVANTAGE_LIMIT ≡ pos 120 }
    ensures least_advice { LEAST_ADVICE ≡ 3 }
    ensures most_advice { MOST_ADVICE ≡ 9 }
{}
