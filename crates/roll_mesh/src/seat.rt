//! Where a machine sits in a match.
ghost use Rattle.std.specs.Prelude.{◌≡◌, ◌<◌, ◌≤◌};
ghost use Rattle.roll_mesh.specs.Groups.{are_grouped, first_of, is_grouped_at};
ghost use Rattle.roll_mesh.specs.Machines.{is_in, is_orphan, owner_of};
ghost use Rattle.roll_mesh.specs.Meshes.{is_seat};
ghost use Rattle.roll_mesh.specs.declared.limits.TheConstants.{PLAYER_LIMIT};

use crate::limits::{INPUT_LIMIT, MACHINE_LIMIT, PLAYER_LIMIT};

/// What all machines of a match are told at the start, and which of them this one is. Machines and players are counted
/// from 0: player 0 is player 1 of a session.
#[derive(Clone, Copy, Debug)]
pub struct Seat {
    /// The machine that owns each player, player 0 first. A number that no machine has if there is no such player.
    pub owners: [u8; PLAYER_LIMIT],
    /// How many machines there are, 2 to 8.
    pub machines: u8,
    /// How many words an input has, 1 to 4. Each so many players in a row, from player 0 on, are the words of one input: one machine
    /// owns them, a packet has the same frames of them, and they leave together.
    pub words: u8,
    /// This machine, 0 to 7.
    pub me: u8,
}

impl Seat {
    /// Whether there are 2 to 8 machines, this one among them, and 1 to 4 words in an input, all of which one machine owns.
    pub fn is_seat(&self) -> bool
        ensures { result ≡ is_seat self.now }
    {
        2 <= self.machines
            && usize::from(self.machines) <= MACHINE_LIMIT
            && self.me < self.machines
            && 1 <= self.words
            && self.words <= INPUT_LIMIT
            && self.are_grouped()
    }

    /// The first player of the input that a player is a word of.
    pub fn first_of(&self, player: usize) -> usize
        ensures first { result ≡ first_of self.now.words player }
        ensures within { result ≤ player }
    {
        let words = usize::from(self.words);
        if words == 0 {
            0
        } else {
            player / words * words
        }
    }

    /// Whether one machine owns the input that a player is a word of, and all its words, if there is such a player.
    fn is_grouped_at(&self, player: usize) -> bool
        requires { player < PLAYER_LIMIT }
        ensures { result ≡ is_grouped_at self.now player }
    {
        let first = self.first_of(player);
        self.owner_of(player) == self.owner_of(first)
            && (self.owner_of(player) >= self.machines
                || first + usize::from(self.words) <= PLAYER_LIMIT)
    }

    /// Whether each input has one owner.
    fn are_grouped(&self) -> bool
        ensures { result ≡ are_grouped self.now }
    {
        for player in 0..PLAYER_LIMIT {
            if !self.is_grouped_at(player) {
                return false;
            }
        }
        true
    }

    /// The machine that owns a player.
    pub(crate) fn owner_of(&self, player: usize) -> u8
        requires { player < PLAYER_LIMIT }
        ensures { result ≡ owner_of self.now player }
    {
        self.owners[player]
    }

    /// Whether the owner of a player is among these machines.
    pub(crate) fn is_orphan(&self, gone: &[bool; MACHINE_LIMIT], player: usize) -> bool
        requires { player < PLAYER_LIMIT }
        ensures { result ≡ is_orphan self.now gone.now player }
    {
        is_in(gone, self.owner_of(player))
    }
}

/// Whether a machine is among these.
pub(crate) fn is_in(gone: &[bool; MACHINE_LIMIT], machine: u8) -> bool
    ensures { result ≡ is_in gone.now machine }
{
    let place = usize::from(machine);
    place < MACHINE_LIMIT && gone[place]
}
