//! What one machine knows of all of them, and its steps.
ghost use Rattle.std.specs.Prelude.{◌≡◌, ◌<◌, ◌≤◌, ◌+◌, ◌&&◌, ◌||◌, ◌==◌, is_none, nat_le, slice_index, Some, None};
ghost use Rattle.roll_mesh.specs.Machines.{agrees, at_places, give, gone_after, has_after, hear, is_believed, is_fenced, is_news, is_same, leave, left, left_after, left_at, may_leave, offer_of, said_by, same_counts, same_gone, taken, tell, told_after, told_by};
ghost use Rattle.roll_mesh.specs.Worlds.{first_machine};
ghost use Rattle.roll_mesh.specs.declared.limits.TheConstants.{MACHINE_LIMIT, PLAYER_LIMIT};

use crate::limits::{MACHINE_LIMIT, PLAYER_LIMIT};
use crate::packet::{Offer, Packet, View};
use crate::seat::{Seat, is_in};

/// What a machine knows of all of them. Machines and players are counted from 0.
#[derive(Clone, Copy, Debug)]
pub struct Machine {
    /// How many words of each player it has, player 0 first.
    pub has: [u32; PLAYER_LIMIT],
    /// Whether it regards each machine as gone: it doesn't listen to one that is.
    pub gone: [bool; MACHINE_LIMIT],
    /// What each machine told last.
    pub told: [Option<View>; MACHINE_LIMIT],
    /// The number of words at which each player has left, player 0 first.
    pub left: [Option<u32>; PLAYER_LIMIT],
}

impl Machine {
    /// A machine at the start.
    pub(crate) fn new() -> Machine
        ensures { result ≡ first_machine }
    {
        Machine {
            has: [0; PLAYER_LIMIT],
            gone: [false; MACHINE_LIMIT],
            told: [None; MACHINE_LIMIT],
            left: [None; PLAYER_LIMIT],
        }
    }

    /// What a machine told last.
    pub(crate) fn told_by(&self, machine: u8) -> Option<View>
        ensures { result ≡ told_by self.now machine }
    {
        let place = usize::from(machine);
        if place < MACHINE_LIMIT {
            self.told[place]
        } else {
            None
        }
    }

    /// The number of words at which a player left.
    pub(crate) fn left_at(&self, player: u8) -> Option<u32>
        ensures { result ≡ left_at self.now player }
    {
        let place = usize::from(player);
        if place < PLAYER_LIMIT {
            self.left[place]
        } else {
            None
        }
    }

    /// How many words of a player a machine said that it has.
    fn said_by(&self, machine: u8, player: usize) -> u32
        requires { player < PLAYER_LIMIT }
        ensures { result ≡ said_by self.now machine player }
    {
        match self.told_by(machine) {
            Some(view) => view.has[player],
            None => 0,
        }
    }

    /// Whether this machine doesn't listen to another, or is that one.
    pub(crate) fn is_fenced(&self, seat: &Seat, machine: u8) -> bool
        ensures { result ≡ is_fenced seat.now self.now machine }
    {
        machine == seat.me || is_in(&self.gone, machine)
    }

    /// One more word of an own player.
    #[tactic(auto, unfolding(crate::specs::Machines::give))]
    pub(crate) fn give(&mut self, seat: &Seat, player: usize)
        requires player { player < PLAYER_LIMIT }
        requires room { slice_index self.old.has player < u32.MAX }
        ensures { self.new ≡ give seat.now player self.old }
    {
        if seat.owner_of(player) == seat.me {
            self.has[player] += 1;
        }
    }

    /// A machine is regarded as gone, unless it is this one.
    #[tactic(auto, unfolding(crate::specs::Machines::leave))]
    pub(crate) fn leave(&mut self, seat: &Seat, machine: u8)
        ensures { self.new ≡ leave seat.now machine self.old }
    {
        let place = usize::from(machine);
        if machine != seat.me && place < MACHINE_LIMIT {
            self.gone[place] = true;
        }
    }

    /// The words of a player for a machine.
    #[tactic(auto, unfolding(crate::specs::Machines::offer_of))]
    fn offer_of(&self, seat: &Seat, machine: u8, room: &[u32; PLAYER_LIMIT], player: usize) -> Offer
        requires { player < PLAYER_LIMIT }
        ensures { result ≡ offer_of seat.now self.now machine room.now player }
    {
        if seat.owner_of(player) == seat.me || seat.is_orphan(&self.gone, player) {
            let has = self.has[player];
            let first = self.said_by(machine, player).min(has);
            Offer {
                first,
                end: first + room[player].min(has - first),
            }
        } else {
            Offer { first: 0, end: 0 }
        }
    }

    /// The packet for a machine, with room for so many words of each player.
    pub(crate) fn tell(&self, seat: &Seat, machine: u8, room: &[u32; PLAYER_LIMIT]) -> Packet
        ensures { result ≡ tell seat.now machine room.now self.now }
    {
        let mut offers = [Offer { first: 0, end: 0 }; PLAYER_LIMIT];
        for player in 0..PLAYER_LIMIT {
            offers[player] = self.offer_of(seat, machine, room, player);
        }
        Packet {
            sender: seat.me,
            view: View {
                gone: self.gone,
                has: self.has,
            },
            offers,
        }
    }

    /// The machines that are regarded as gone after a packet.
    fn gone_after(&self, seat: &Seat, packet: &Packet) -> [bool; MACHINE_LIMIT]
        ensures { result ≡ gone_after seat.now self.now packet.now }
    {
        let mut gone = self.gone;
        if is_in(&packet.view.gone, seat.me) {
            return gone;
        }
        for machine in 0..MACHINE_LIMIT {
            gone[machine] = self.gone[machine] | packet.view.gone[machine];
        }
        gone
    }

    /// How many words of a player there are after a packet.
    #[tactic(auto, unfolding(crate::specs::Machines::has_after))]
    fn has_after(
        &self,
        seat: &Seat,
        gone: &[bool; MACHINE_LIMIT],
        packet: &Packet,
        player: usize,
    ) -> u32
        requires { player < PLAYER_LIMIT }
        ensures { result ≡ has_after seat.now gone.now self.now packet.now player }
    {
        let has = self.has[player];
        let offer = packet.offers[player];
        if self.left[player].is_none()
            && is_believed(seat, gone, packet, player)
            && offer.first <= has
        {
            has.max(offer.end)
        } else {
            has
        }
    }

    /// Whether the packet tells no older view than the last one.
    fn is_news(&self, packet: &Packet) -> bool
        ensures { result ≡ is_news self.now packet.now }
    {
        match self.told_by(packet.sender) {
            Some(old) => packet.view.covers(&old),
            None => true,
        }
    }

    /// What each machine told last, after a packet.
    #[tactic(auto, unfolding(crate::specs::Machines::told_after))]
    fn told_after(&self, packet: &Packet) -> [Option<View>; MACHINE_LIMIT]
        requires { packet.now.sender < MACHINE_LIMIT }
        ensures { result ≡ told_after self.now packet.now }
    {
        let mut told = self.told;
        if self.is_news(packet) {
            told[usize::from(packet.sender)] = Some(packet.view);
        }
        told
    }

    /// How many words of each player there are after a packet.
    fn counts_after(
        &self,
        seat: &Seat,
        gone: &[bool; MACHINE_LIMIT],
        packet: &Packet,
    ) -> [u32; PLAYER_LIMIT]
        ensures { result
            ≡ at_places (has_after seat.now gone.now self.now packet.now) self.now.has }
    {
        let mut has = [0; PLAYER_LIMIT];
        for player in 0..PLAYER_LIMIT {
            has[player] = self.has_after(seat, gone, packet, player);
        }
        has
    }

    /// How many words of each player there are once it has heard a packet.
    #[tactic(auto, unfolding(crate::specs::Machines::taken))]
    pub(crate) fn counts_taken(&self, seat: &Seat, packet: &Packet) -> [u32; PLAYER_LIMIT]
        ensures { result ≡ (taken seat.now packet.now self.now).has }
    {
        let gone = self.gone_after(seat, packet);
        self.counts_after(seat, &gone, packet)
    }

    /// Hears a packet of a machine that it listens to.
    #[tactic(auto, unfolding(crate::specs::Machines::taken))]
    pub(crate) fn take(&mut self, seat: &Seat, packet: &Packet)
        requires { packet.now.sender < MACHINE_LIMIT }
        ensures { self.new ≡ taken seat.now packet.now self.old }
    {
        let gone = self.gone_after(seat, packet);
        let has = self.counts_after(seat, &gone, packet);
        let told = self.told_after(packet);
        self.has = has;
        self.gone = gone;
        self.told = told;
    }

    /// Whether there are as many words of each player whose owner is gone.
    fn same_counts(&self, seat: &Seat, theirs: &[u32; PLAYER_LIMIT]) -> bool
        ensures { result ≡ same_counts seat.now self.now theirs.now }
    {
        for player in 0..PLAYER_LIMIT {
            if seat.is_orphan(&self.gone, player) && self.has[player] != theirs[player] {
                return false;
            }
        }
        true
    }

    /// Whether a machine doesn't stand in the way of who leaves.
    fn agrees(&self, seat: &Seat, machine: u8) -> bool
        ensures { result ≡ agrees seat.now self.now machine }
    {
        if self.is_fenced(seat, machine) {
            return true;
        }
        match self.told_by(machine) {
            Some(view) => same_gone(&self.gone, &view.gone) && self.same_counts(seat, &view.has),
            None => false,
        }
    }

    /// Whether the players of who is gone may leave.
    pub(crate) fn may_leave(&self, seat: &Seat) -> bool
        ensures { result ≡ may_leave seat.now self.now }
    {
        for machine in 0..seat.machines {
            if !self.agrees(seat, machine) {
                return false;
            }
        }
        true
    }

    /// The number of words at which a player has left, once those who may have left.
    #[tactic(auto, unfolding(crate::specs::Machines::left_after))]
    fn left_after(&self, seat: &Seat, player: usize) -> Option<u32>
        requires { player < PLAYER_LIMIT }
        ensures { result ≡ left_after seat.now self.now player }
    {
        if self.left[player].is_none() && seat.is_orphan(&self.gone, player) {
            Some(self.has[player])
        } else {
            self.left[player]
        }
    }

    /// Lets the players of who is gone leave, if they may.
    pub(crate) fn let_leave(&mut self, seat: &Seat)
        ensures { self.new ≡ left seat.now self.old }
    {
        if self.may_leave(seat) {
            let mut left = self.left;
            for player in 0..PLAYER_LIMIT {
                left[player] = self.left_after(seat, player);
            }
            self.left = left;
        }
    }
}

/// Whether these are the same machines.
fn same_gone(ours: &[bool; MACHINE_LIMIT], theirs: &[bool; MACHINE_LIMIT]) -> bool
    ensures { result ≡ same_gone ours.now theirs.now }
{
    for machine in 0..MACHINE_LIMIT {
        if ours[machine] != theirs[machine] {
            return false;
        }
    }
    true
}

/// Whether the packet's words of a player are taken.
#[tactic(auto, unfolding(crate::specs::Machines::is_believed))]
fn is_believed(seat: &Seat, gone: &[bool; MACHINE_LIMIT], packet: &Packet, player: usize) -> bool
    requires { player < PLAYER_LIMIT }
    ensures { result ≡ is_believed seat.now gone.now packet.now player }
{
    seat.owner_of(player) == packet.sender
        || seat.is_orphan(gone, player) && seat.is_orphan(&packet.view.gone, player)
}
