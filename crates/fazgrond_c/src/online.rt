//! A match that an open session plays over a network.
ghost use Rattle.std.specs.Prelude.{◌≡◌, ◌≤◌};
ghost use Rattle.fazgrond_c.specs.MatchKinds.{words_of};

use roll_match::Match;
use roll_requests::Elsewhere;

/// A match, and what its frames and inputs are like.
#[derive(Drop)]
pub struct Online {
    pub it: Match<Elsewhere>,
    /// How many bytes an input has.
    pub input_size: u8,
    /// How many microseconds a frame lasts.
    pub frame_time: u32,
    ghost sized: { 1 ≤ input_size },
    ghost short: { input_size ≤ 16 },
    ghost timed: { frame_time ≤ 1000000 },
}

impl Online {
    /// How many words of the session an input takes.
    pub fn words(&self) -> u8
        ensures words { result ≡ words_of self.now.input_size }
        ensures least { 1 ≤ result }
        ensures most { result ≤ 4 }
    {
        (self.input_size + 3) / 4
    }
}
