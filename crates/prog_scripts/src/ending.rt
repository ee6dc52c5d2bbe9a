//! Which game a text is for, and how the program ends.
use crate::fault::PlayFault;

/// The games that a script can be played with, and that can be tested.
#[derive(Clone, Copy, Debug, PartialEq, Eq)]
pub enum GameName {
    /// The sum of `roll_game`'s `Tally`.
    Tally,
    /// The ship duel, with a ship for each player.
    Duel,
}

/// How the program ends.
#[derive(Clone, Copy, Debug, PartialEq, Eq)]
pub struct Ending {
    /// The exit status: 0; 1 where a reply was a refusal, a frame came out different or a claim isn't right; 2 after a fault.
    pub status: u8,
    /// What is told on standard error.
    pub fault: Option<PlayFault>,
}

impl From<PlayFault> for Ending {
    ghost use Rattle.std.specs.Prelude.{◌≡◌, Some};

    ghost from_gives = { λ fault ending. ending ≡ record { status = 2; fault = Some fault } };

    fn from(fault: PlayFault) -> Ending {
        Ending {
            status: 2,
            fault: Some(fault),
        }
    }
}
