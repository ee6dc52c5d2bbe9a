//! What both ends of a viewer's line are told.
ghost use Rattle.std.specs.Prelude.{◌≡◌, ◌≤◌};
ghost use Rattle.roll_mesh.specs.declared.limits.TheConstants.{PLAYER_LIMIT};
ghost use Rattle.roll_viewer.specs.Lines.{fault_of, opening_of, players_of, terms_of};

use crate::refusal::LineFault;
use roll_contact::{Opening, Terms};
use roll_mesh::{MACHINE_LIMIT, PLAYER_LIMIT};

/// A viewer's line with its host: the same at both ends, but for `draw` and `silent_after`.
#[derive(Clone, Copy, Debug)]
pub struct LineSettings {
    /// The line's number: 64 bits drawn at random for this line alone, and told to nobody but its two ends. It isn't the match's.
    pub number: u64,
    /// 64 bits drawn at random for this opening of this end, which aren't 0.
    pub draw: u64,
    /// The machine of the match that tells the viewer, from 0.
    pub host: u8,
    /// How many machines the match has, 2 to 8.
    pub machines: u8,
    /// The machine that owns each player, player 1 first; 255 if there is no such player.
    pub owners: [u8; PLAYER_LIMIT],
    /// A digest of all else that must be alike, but for the opening state: the game, the session's limits.
    pub digest: u64,
    /// A digest of the game's opening state.
    pub opening: u64,
    /// After how many milliseconds the other end is silent, which answers nothing; 0: it never is.
    pub silent_after: u32,
}

impl LineSettings {
    /// Why no end is opened by these, if none is.
    pub(crate) fn fault(&self) -> Option<LineFault>
        ensures { result ≡ fault_of self.now }
    {
        if self.draw == 0 {
            Some(LineFault::NoDraw)
        } else if self.machines < 2 || self.machines as usize > MACHINE_LIMIT {
            Some(LineFault::Machines)
        } else if self.host >= self.machines {
            Some(LineFault::Host)
        } else {
            None
        }
    }

    /// What the two ends compare.
    pub(crate) fn terms(&self) -> Terms
        ensures { result ≡ terms_of self.now }
    {
        Terms {
            machines: self.machines,
            owners: self.owners,
            digest: self.digest,
            opening: self.opening,
            words: 1,
            lasts: false,
        }
    }

    /// What this end says of itself.
    pub(crate) fn opening(&self) -> Opening
        ensures { result ≡ opening_of self.now }
    {
        Opening {
            draw: self.draw,
            silent_after: self.silent_after,
            carries: false,
        }
    }

    /// How many players the match has.
    pub(crate) fn players(&self) -> usize
        ensures count { result ≡ players_of self.now }
        ensures few { result ≤ PLAYER_LIMIT }
    {
        let machines = self.machines;
        self.owners
            .iter()
            .filter(|owner| **owner < machines)
            .count()
    }
}
