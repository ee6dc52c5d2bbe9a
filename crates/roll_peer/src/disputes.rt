//! Whether a machine knows another mark of a player than this one.
ghost use Rattle.std.specs.Prelude.{◌≡◌, ◌<◌};
ghost use Rattle.roll_mesh.specs.declared.limits.TheConstants.{MACHINE_LIMIT, PLAYER_LIMIT};
ghost use Rattle.roll_peer.specs.Disputes.{are_two, dispute_told, disputed, first_two, found_two, is_denied, is_known_by, is_one_mark, is_one_newcomer, newly_found};
ghost use Rattle.roll_wire.specs.Spelling.{turn};

use crate::event::PeerEvent;
use crate::peer::Peer;
use roll_mesh::{MACHINE_LIMIT, PLAYER_LIMIT};
use roll_wire::{Mark, Marked, Newcomer, Play};

impl Peer {
    /// A turn of a machine was heard: it is told if that one knows another mark of a player.
    pub(crate) fn dispute(&mut self, sender: u8, play: &Play)
        requires { sender < MACHINE_LIMIT }
        ensures { self.new ≡ disputed sender (turn play.now) self.old }
    {
        let player = self.found_two(play);
        self.tell_dispute(sender, player);
    }

    /// It is told of which player a machine knows another mark, if it does, once of each machine.
    pub(crate) fn tell_dispute(&mut self, machine: u8, player: Option<u8>)
        requires { machine < MACHINE_LIMIT }
        ensures { self.new ≡ dispute_told machine player self.old }
    {
        let place = usize::from(machine);
        let before = self.disputes[place];
        self.disputes[place] = before.or(player);
        if let Some(player) = newly_found(before, player) {
            self.events.push(PeerEvent::TwoMarks { machine, player });
        }
    }

    /// The player of whom a turn shows two marks, where marks are taken.
    fn found_two(&self, play: &Play) -> Option<u8>
        ensures { result ≡ found_two self.now (turn play.now) }
    {
        if self.settings.takes_marks {
            self.first_two(play)
        } else {
            None
        }
    }

    /// The first player of whom a turn's sender knows another mark, counted from 1.
    fn first_two(&self, play: &Play) -> Option<u8>
        ensures { result ≡ first_two self.now (turn play.now) }
    {
        for player in 0..PLAYER_LIMIT as u8 {
            if self.are_two(play, player) {
                return Some(player + 1);
            }
        }
        None
    }

    fn are_two(&self, play: &Play, player: u8) -> bool
        requires { player < PLAYER_LIMIT }
        ensures { result ≡ are_two self.now (turn play.now) player }
    {
        let place = usize::from(player);
        let here = self.member.mesh().has()[place];
        let there = play.head.view.has[place];
        is_denied(here, self.marks[place], play.marks[place])
            || is_denied(there, play.marks[place], self.marks[place])
    }
}

/// The player of whom it is to be told now: none if it was told of one before.
fn newly_found(before: Option<u8>, player: Option<u8>) -> Option<u8>
    ensures { result ≡ newly_found before player }
{
    match before {
        None => player,
        Some(_) => None,
    }
}

/// Whether a mark is denied by one who knows this of the player, and has so many words of it.
fn is_denied(count: u32, known: Option<Marked>, other: Option<Marked>) -> bool
    ensures { result ≡ is_denied count known other }
{
    match other {
        Some(marked) => marked.frame < count && !is_known_by(known, &marked),
        None => false,
    }
}

/// Whether who knows this of a player knows a mark.
fn is_known_by(known: Option<Marked>, marked: &Marked) -> bool
    ensures { result ≡ is_known_by known marked.now }
{
    match known {
        Some(known) => known.frame == marked.frame && is_one_mark(&known.mark, &marked.mark),
        None => false,
    }
}

/// Whether two marks say the same.
fn is_one_mark(one: &Mark, other: &Mark) -> bool
    ensures { result ≡ is_one_mark one.now other.now }
{
    let is_one = match (one.newcomer, other.newcomer) {
        (Some(one), Some(other)) => is_one_newcomer(&one, &other),
        (None, None) => true,
        _ => false,
    };
    is_one && one.delays == other.delays && one.threshold == other.threshold
}

fn is_one_newcomer(one: &Newcomer, other: &Newcomer) -> bool
    ensures { result ≡ is_one_newcomer one.now other.now }
{
    one.players == other.players && one.ticket == other.ticket
}
