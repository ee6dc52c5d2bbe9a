//! Who holds up a match.
ghost use Rattle.std.specs.Prelude.{◌≡◌, ◌<◌, Some};
ghost use Rattle.roll_mesh.specs.HoldingUp.{are_clear, awaited, could_give, fewest_of, given_by, holds_up, is_free, is_leaving, is_open_at, knows_more, lacked_of, lacks, least_some, most_of};
ghost use Rattle.roll_mesh.specs.declared.limits.TheConstants.{PLAYER_LIMIT};

use crate::limits::PLAYER_LIMIT;
use crate::machine::Machine;
use crate::mesh::Mesh;
use crate::packet::View;
use crate::seat::Seat;

/// So many words more a machine can have while it waits: the greatest input delay.
const DELAY_ROOM: u64 = 8;

impl Mesh {
    /// The number of words of a player of another machine whose next one this machine waits for, if that machine holds up the match:
    /// if by what it told last it could give that word. `threshold` is by how many frames a machine runs ahead of the words that it
    /// has. None also if the machine is gone, this one, or has told nothing yet.
    #[tactic(auto, unfolding(crate::specs::HoldingUp::holds_up))]
    pub fn holds_up(&self, machine: u8, threshold: u32) -> Option<u32>
        ensures { result ≡ holds_up self.now.seat self.now.machine threshold machine }
    {
        let here = self.machine();
        if here.is_fenced(self.seat(), machine) {
            return None;
        }
        match here.told_by(machine) {
            Some(view) if could_give(self.seat(), here, &view, machine, threshold) => {
                awaited(self.seat(), here, machine, threshold)
            }
            _ => None,
        }
    }

    /// How many words of this machine's players another says that it has, if that is fewer than there are. None also if the machine is
    /// gone, this one, or has told nothing yet.
    #[tactic(auto, unfolding(crate::specs::HoldingUp::lacks))]
    pub fn lacks(&self, machine: u8) -> Option<u32>
        ensures { result ≡ lacks self.now.seat self.now.machine machine }
    {
        let here = self.machine();
        let seat = self.seat();
        if here.is_fenced(seat, machine) {
            return None;
        }
        match here.told_by(machine) {
            Some(view) => lacked_of(seat, most_of(seat, &here.has, seat.me), &view),
            None => None,
        }
    }

    /// Whether nothing can keep a machine from going on that this one doesn't see: a mark that isn't known here yet, or that it doesn't
    /// know yet that all agree on who has left.
    #[tactic(auto, unfolding(crate::specs::HoldingUp::is_free))]
    pub fn is_free(&self, machine: u8, threshold: u32) -> bool
        ensures { result ≡ is_free self.now.seat self.now.machine threshold machine }
    {
        match self.machine().told_by(machine) {
            Some(view) => are_clear(self.seat(), self.machine(), &view, machine, threshold),
            None => true,
        }
    }

    /// How many words there are of another machine's players, at most.
    pub fn given(&self, machine: u8) -> u32
        ensures { result ≡ most_of self.now.seat self.now.machine.has machine PLAYER_LIMIT }
    {
        most_of(self.seat(), &self.machine().has, machine)
    }
}

/// Of so many words of this machine's players how many one has that told this, if it lacks some.
fn lacked_of(seat: &Seat, own: u32, view: &View) -> Option<u32>
    ensures { result ≡ lacked_of seat.now own (Some view.now) }
{
    let theirs = most_of(seat, &view.has, seat.me);
    if theirs < own { Some(theirs) } else { None }
}

/// The most words that there are of a machine's players.
#[tactic(auto, using(crate::proofs::HoldingUp::most_none, crate::proofs::HoldingUp::most_next))]
fn most_of(seat: &Seat, has: &[u32; PLAYER_LIMIT], machine: u8) -> u32
    ensures { result ≡ most_of seat.now has.now machine PLAYER_LIMIT }
{
    let mut most = 0;
    for player in 0..PLAYER_LIMIT {
        if seat.owner_of(player) == machine {
            most = has[player].max(most);
        }
    }
    most
}

/// The fewest words that this machine has of another's players who haven't left.
#[tactic(auto, using(crate::proofs::HoldingUp::fewest_none, crate::proofs::HoldingUp::fewest_next))]
fn fewest_of(seat: &Seat, here: &Machine, machine: u8) -> Option<u32>
    ensures { result ≡ fewest_of seat.now here.now machine PLAYER_LIMIT }
{
    let mut fewest = None;
    for player in 0..PLAYER_LIMIT {
        if seat.owner_of(player) == machine && here.left_at(player as u8).is_none() {
            fewest = Some(least_with(here.has[player], fewest));
        }
    }
    fewest
}

/// The lesser of a number and another, if there is one.
fn least_with(count: u32, other: Option<u32>) -> u32
    ensures { result ≡ least_some count other }
{
    match other {
        Some(other) => count.min(other),
        None => count,
    }
}

/// The number of words of a machine's player that this machine waits for, if it does.
fn awaited(seat: &Seat, here: &Machine, machine: u8, threshold: u32) -> Option<u32>
    ensures { result ≡ awaited seat.now here.now threshold machine }
{
    let own = most_of(seat, &here.has, seat.me);
    match fewest_of(seat, here, machine) {
        Some(fewest) if u64::from(fewest) + u64::from(threshold) <= u64::from(own) => Some(fewest),
        _ => None,
    }
}

/// Whether who has so many words of its own isn't kept from its next one by a player.
fn is_open_at(
    here: &Machine,
    own: u32,
    has: &[u32; PLAYER_LIMIT],
    player: usize,
    threshold: u32,
) -> bool
    requires { player < PLAYER_LIMIT }
    ensures { result ≡ is_open_at here.now threshold own has.now player }
{
    let end = u64::from(has[player]) + u64::from(threshold);
    u64::from(own) < end || here.left_at(player as u8).is_some()
}

/// How many words of its own a machine has given, which told this: as many as it says that it has, and no more than came here.
fn given_by(seat: &Seat, here: &Machine, view: &View, machine: u8) -> u32
    ensures { result ≡ given_by seat.now here.now machine view.now }
{
    most_of(seat, &here.has, machine).min(most_of(seat, &view.has, machine))
}

/// Whether a machine that told this could give its next word: no player of the match keeps it from that.
fn could_give(seat: &Seat, here: &Machine, view: &View, machine: u8, threshold: u32) -> bool
    ensures { result ≡ could_give seat.now here.now threshold machine view.now }
{
    let own = given_by(seat, here, view, machine);
    for player in 0..PLAYER_LIMIT {
        if seat.owner_of(player) < seat.machines
            && !is_open_at(here, own, &view.has, player, threshold)
        {
            return false;
        }
    }
    true
}

/// Whether a machine that told this has more words than are here of a third one's player.
fn knows_more(
    seat: &Seat,
    here: &Machine,
    machine: u8,
    has: &[u32; PLAYER_LIMIT],
    player: usize,
) -> bool
    requires { player < PLAYER_LIMIT }
    ensures { result ≡ knows_more seat.now here.now machine has.now player }
{
    let owner = seat.owner_of(player);
    owner != seat.me && owner != machine && here.has[player] < has[player]
}

/// Whether a player has left here, and who has so many words of its own hasn't gone on since.
fn is_leaving(
    here: &Machine,
    own: u32,
    has: &[u32; PLAYER_LIMIT],
    player: usize,
    threshold: u32,
) -> bool
    requires { player < PLAYER_LIMIT }
    ensures { result ≡ is_leaving here.now threshold own has.now player }
{
    let end = u64::from(has[player]) + u64::from(threshold) + DELAY_ROOM;
    here.left_at(player as u8).is_some() && u64::from(own) <= end
}

/// Whether no player can keep a machine that told this from going on without this one seeing it.
fn are_clear(seat: &Seat, here: &Machine, view: &View, machine: u8, threshold: u32) -> bool
    ensures { result ≡ are_clear seat.now here.now threshold machine view.now }
{
    let own = given_by(seat, here, view, machine);
    for player in 0..PLAYER_LIMIT {
        if knows_more(seat, here, machine, &view.has, player)
            || is_leaving(here, own, &view.has, player, threshold)
        {
            return false;
        }
    }
    true
}
