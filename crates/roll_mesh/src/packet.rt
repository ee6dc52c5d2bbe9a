//! What machines tell each other.
ghost use Rattle.std.specs.Prelude.{◌≡◌, ◌<◌};
ghost use Rattle.roll_mesh.specs.Groups.{is_even, is_even_at};
ghost use Rattle.roll_mesh.specs.declared.limits.TheConstants.{PLAYER_LIMIT};
ghost use Rattle.roll_mesh.specs.Meshes.{is_had};
ghost use Rattle.roll_mesh.specs.Machines.{covers, keeps, kept_offer, reaches, shortened, trimmed, trimmed_offer};

use crate::limits::{MACHINE_LIMIT, PLAYER_LIMIT};
use crate::seat::Seat;

/// What a machine tells of itself. Machines and players are counted from 0.
#[derive(Clone, Copy, Debug)]
pub struct View {
    /// Whether it regards each machine as gone, machine 0 first.
    pub gone: [bool; MACHINE_LIMIT],
    /// How many words of each player it has, player 0 first.
    pub has: [u32; PLAYER_LIMIT],
}

impl View {
    /// Whether this view says all that an older one says.
    pub(crate) fn covers(&self, old: &View) -> bool
        ensures { result ≡ covers old.now self.now }
    {
        keeps(&old.gone, &self.gone) && reaches(&old.has, &self.has)
    }
}

/// Whether all of these machines are among the others.
fn keeps(old: &[bool; MACHINE_LIMIT], new: &[bool; MACHINE_LIMIT]) -> bool
    ensures { result ≡ keeps old.now new.now }
{
    for machine in 0..MACHINE_LIMIT {
        if old[machine] && !new[machine] {
            return false;
        }
    }
    true
}

/// Whether there are as many words of each player, or more.
fn reaches(old: &[u32; PLAYER_LIMIT], new: &[u32; PLAYER_LIMIT]) -> bool
    ensures { result ≡ reaches old.now new.now }
{
    for player in 0..PLAYER_LIMIT {
        if old[player] > new[player] {
            return false;
        }
    }
    true
}

/// The words of a player in a packet: of these frames, none if both are the same.
#[derive(Clone, Copy, Debug)]
pub struct Offer {
    /// The frame of the first word. A player's words begin at frame 0.
    pub first: u32,
    /// The frame after the last word.
    pub end: u32,
}

impl Offer {
    /// The words before a frame.
    fn trimmed(self, most: u32) -> Offer
        ensures { result ≡ trimmed_offer most self }
    {
        Offer {
            first: self.first,
            end: self.end.min(most),
        }
    }

    /// The words, and nothing if there are none.
    fn kept(self) -> Offer
        ensures { result ≡ kept_offer self }
    {
        if self.first == self.end {
            Offer { first: 0, end: 0 }
        } else {
            self
        }
    }
}

/// A packet as a mesh hears it: with the counts of its words alone. Machines and players are counted from 0.
#[derive(Clone, Copy, Debug)]
pub struct Packet {
    /// The machine that sent it, 0 to 7.
    pub sender: u8,
    /// What that machine tells of itself.
    pub view: View,
    /// The words of each player that are in it, player 0 first.
    pub offers: [Offer; PLAYER_LIMIT],
}

impl Packet {
    /// Whether its sender says that it has all that it offers.
    pub(crate) fn is_had(&self) -> bool
        ensures { result ≡ is_had self.now }
    {
        for player in 0..PLAYER_LIMIT {
            if self.offers[player].end > self.view.has[player] {
                return false;
            }
        }
        true
    }

    /// Whether it has the same count and the same frames of all words of an input.
    pub fn is_even(&self, seat: &Seat) -> bool
        ensures { result ≡ is_even seat.now self.now }
    {
        for player in 0..PLAYER_LIMIT {
            if !self.is_even_at(seat, player) {
                return false;
            }
        }
        true
    }

    /// Whether it has the same count and the same frames of a player as of the first word of the same input.
    fn is_even_at(&self, seat: &Seat, player: usize) -> bool
        requires { player < PLAYER_LIMIT }
        ensures { result ≡ is_even_at seat.now self.now player }
    {
        let first = seat.first_of(player);
        self.view.has[player] == self.view.has[first]
            && self.offers[player].first == self.offers[first].first
            && self.offers[player].end == self.offers[first].end
    }

    /// The packet with each player's words before a frame alone, for a machine that has no room for more: the rest come
    /// again, since they are told until they are there. A packet that isn't refused isn't refused trimmed either, if it
    /// is trimmed alike for all words of an input; and if it is trimmed to no fewer words than there are, and to no
    /// more than it would bring, just as many are there once it is heard (`proofs/Trimmed.antt`).
    pub fn trimmed(&self, most: &[u32; PLAYER_LIMIT]) -> Packet
        ensures { result ≡ trimmed most.now self.now }
    {
        let mut offers = self.offers;
        for player in 0..PLAYER_LIMIT {
            offers[player] = self.offers[player].trimmed(most[player]);
        }
        Packet {
            sender: self.sender,
            view: self.view,
            offers,
        }
    }

    /// The packet without its offers of no words. Whoever hears it hears the same.
    pub fn shortened(&self) -> Packet
        ensures { result ≡ shortened self.now }
    {
        let mut offers = [Offer { first: 0, end: 0 }; PLAYER_LIMIT];
        for player in 0..PLAYER_LIMIT {
            offers[player] = self.offers[player].kept();
        }
        Packet {
            sender: self.sender,
            view: self.view,
            offers,
        }
    }
}
