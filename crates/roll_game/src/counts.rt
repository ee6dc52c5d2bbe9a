//! What a game was asked for.
ghost use Rattle.std.specs.Prelude.{◌≡◌, is_ok};
ghost use Rattle.std.specs.Result.{result_ok};
ghost use Rattle.roll_game.specs.Counts.{counted, no_calls};

use crate::game::NoMemory;
use std::alloc::AllocError;

/// A call that a game may refuse.
#[derive(Clone, Copy, Debug, PartialEq, Eq)]
pub enum Call {
    Load,
    Save,
    Copy,
    Advance,
}

/// How often each call was asked for, granted or not, and how often one was refused, each modulo 2^64.
#[derive(Clone, Copy, Debug, Default, PartialEq, Eq)]
pub struct Counts {
    pub loads: u64,
    pub saves: u64,
    pub copies: u64,
    /// The advances.
    pub turns: u64,
    /// The calls of any kind that were refused.
    pub refusals: u64,
}

impl Counts {
    /// The counts of a game that was not yet asked for anything.
    pub fn new() -> Counts
        ensures { result ≡ no_calls }
    {
        Counts::default()
    }

    /// Counts a call.
    pub fn note(&mut self, call: Call, granted: bool)
        ensures { self.new ≡ counted call granted self.old }
    {
        match call {
            Call::Load => self.loads = self.loads.wrapping_add(1),
            Call::Save => self.saves = self.saves.wrapping_add(1),
            Call::Copy => self.copies = self.copies.wrapping_add(1),
            Call::Advance => self.turns = self.turns.wrapping_add(1),
        }
        if !granted {
            self.refusals = self.refusals.wrapping_add(1);
        }
    }

    /// Counts a call, which was granted if it came out well, and passes on what came out.
    pub fn note_outcome<T>(
        &mut self,
        call: Call,
        outcome: Result<T, AllocError>,
    ) -> Result<T, NoMemory>
        ensures value { result_ok result ≡ result_ok outcome }
        ensures counts { self.new ≡ counted call (is_ok result) self.old }
    {
        self.note(call, outcome.is_ok());
        outcome.map_err(|_| NoMemory)
    }
}
