//! What a session can't start with.
ghost use Rattle.std.specs.Prelude.{◌≡◌};
ghost use Rattle.roll_frame.specs.Faults.{refusal_of};

use crate::refusal::Refusal;
use thiserror::Error;

/// What a session can't start with, in the order in which a start looks for it. Players are numbered from 1.
#[derive(Clone, Copy, Debug, PartialEq, Eq, Error)]
pub enum SettingsFault {
    /// The number of players is out of the profile's range.
    #[error("the number of players is out of range")]
    Players,
    /// No player is local.
    #[error("no player is local")]
    NoLocalPlayer,
    /// A local player isn't one of the players.
    #[error("local player {player} is not one of the players")]
    LocalPlayerOutside { player: u8 },
    /// A player's delay is over 8 frames.
    #[error("the delay of player {player} is too long")]
    LongDelay { player: u8 },
    /// A player who isn't local has a delay.
    #[error("player {player} is not local and has a delay")]
    DelayOfRemotePlayer { player: u8 },
    /// The prediction threshold is out of the profile's range.
    #[error("the prediction threshold is out of range")]
    Threshold,
    /// The frame limit is not 1 to 1,048,576.
    #[error("the frame limit is out of range")]
    FrameLimit,
    /// The log limit is not 1 to 16,777,216.
    #[error("the log limit is out of range")]
    LogLimit,
    /// A delay or a mask is for none of the players. No start looks for this: only `with_delay` and `with_mask` do.
    #[error("there is no player {player}")]
    NoPlayer { player: u8 },
}

impl SettingsFault {
    /// How a start is refused for it: `PlayerOutOfRange` for the number of players, `InvalidRequest` for the rest.
    pub fn refusal(&self) -> Refusal
        ensures { result ≡ refusal_of self.now }
    {
        match self {
            SettingsFault::Players => Refusal::PlayerOutOfRange,
            _ => Refusal::InvalidRequest,
        }
    }
}

impl From<SettingsFault> for Refusal {
    ghost use Rattle.std.specs.Prelude.{◌≡◌};
    ghost use Rattle.roll_frame.specs.Faults.{refusal_of};

    ghost from_gives = { λ fault refusal. refusal ≡ refusal_of fault };

    fn from(fault: SettingsFault) -> Refusal {
        fault.refusal()
    }
}
