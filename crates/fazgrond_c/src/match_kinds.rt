//! What C sees of a turn of a match, and of settings that don't fit.
ghost use Rattle.std.specs.Prelude.{◌≡◌};
ghost use Rattle.fazgrond_c.specs.MatchKinds.{unfit_out};

use crate::match_settings::Unfit;
use roll_mesh::{MACHINE_LIMIT, PLAYER_LIMIT};

/// What a turn has done.
#[repr(C)]
#[derive(Drop)]
pub struct TurnOut {
    /// Whether the match has begun.
    pub is_running: u32,
    /// Whether the session has played a frame.
    pub has_played: u32,
    /// Whether an epoch ended, and the next one has begun.
    pub has_gone_on: u32,
    /// Whether there are requests to carry out, so that there is something new to draw.
    pub has_requests: u32,
    /// The frame that the session has come to.
    pub frame: u32,
    /// How many words that waited the session got, since they had waited for as many turns as they may.
    pub handed: u32,
    /// What couldn't be done in this turn, and is tried again in the next one: an answer; else 0.
    pub failed: i32,
    /// Why no frame was played though inputs were given, and one was due: an answer; else 0.
    pub waits_for: i32,
    /// In how many microseconds after this turn began the next one should.
    pub next_in: u32,
}

/// How an epoch of a match opened, and who was in the one before.
#[repr(C)]
#[derive(Drop)]
pub struct StayedOut {
    /// Its number, and how many frames of the match came before it.
    pub epoch: u64,
    pub base: u64,
    pub machines: u32,
    pub threshold: u32,
    /// Of each player.
    pub owners: [u32; PLAYER_LIMIT],
    pub delays: [u32; PLAYER_LIMIT],
    /// Of each machine, whether it was in the epoch before too.
    pub stayed: [u32; MACHINE_LIMIT],
}

/// Which setting of a match doesn't fit.
#[repr(C)]
#[derive(Drop)]
pub struct UnfitOut {
    /// Its number; 0 if it is none of them.
    pub setting: u32,
    /// The player, counted from 1, if it has one for each; else 0.
    pub player: u32,
    /// What is too much; else 0.
    pub value: u32,
}

impl UnfitOut {
    /// A setting that doesn't fit.
    pub fn of(why: Unfit) -> UnfitOut
        ensures { result ≡ unfit_out why }
    {
        match why {
            Unfit::Me(value) => UnfitOut::at(1, 0, value),
            Unfit::Machines(value) => UnfitOut::at(2, 0, value),
            Unfit::InputSize(value) => UnfitOut::at(3, 0, value),
            Unfit::Inputs(value) => UnfitOut::at(3, 0, value),
            Unfit::Owner(player, value) => UnfitOut::at(4, player, value),
            Unfit::Delay(player, value) => UnfitOut::at(5, player, value),
            Unfit::Profile(value) => UnfitOut::at(6, 0, value),
            Unfit::Threshold(value) => UnfitOut::at(7, 0, value),
            Unfit::HeldTurns(value) => UnfitOut::at(8, 0, value),
            Unfit::FrameTime(value) => UnfitOut::at(9, 0, value),
        }
    }

    /// None does.
    pub fn none() -> UnfitOut
        ensures { result ≡ record { setting = 0; player = 0; value = 0 } }
    {
        UnfitOut::at(0, 0, 0)
    }

    fn at(setting: u32, player: u32, value: u32) -> UnfitOut
        ensures { result ≡ record { setting = setting; player = player; value = value } }
    {
        UnfitOut {
            setting,
            player,
            value,
        }
    }
}
