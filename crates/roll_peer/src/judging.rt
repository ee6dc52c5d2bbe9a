//! What a play may speak of.
ghost use Rattle.std.specs.Prelude.{◌≡◌, ◌<◌};
ghost use Rattle.roll_peer.specs.Judging.{are_its_machines, are_its_players, are_no_more, is_inside, is_its_machine, is_its_player, is_no_more};
ghost use Rattle.roll_mesh.specs.declared.limits.TheConstants.{MACHINE_LIMIT, PLAYER_LIMIT};

use roll_mesh::{MACHINE_LIMIT, PLAYER_LIMIT, Packet, Seat};

/// Whether a packet speaks of machines and players of the match alone, and alike of all words of an input.
pub(crate) fn is_inside(seat: &Seat, packet: &Packet) -> bool
    ensures { result ≡ is_inside seat.now packet.now }
{
    are_its_machines(seat, packet) && are_its_players(seat, packet) && packet.is_even(seat)
}

/// Whether all machines that a packet calls gone are of the match.
fn are_its_machines(seat: &Seat, packet: &Packet) -> bool
    ensures { result ≡ are_its_machines seat.now packet.now }
{
    for machine in 0..MACHINE_LIMIT {
        if !is_its_machine(seat, packet, machine) {
            return false;
        }
    }
    true
}

fn is_its_machine(seat: &Seat, packet: &Packet, machine: usize) -> bool
    requires { machine < MACHINE_LIMIT }
    ensures { result ≡ is_its_machine seat.now packet.now machine }
{
    !packet.view.gone[machine] || machine < usize::from(seat.machines)
}

/// Whether all players of whom a packet has words or counts are of the match.
fn are_its_players(seat: &Seat, packet: &Packet) -> bool
    ensures { result ≡ are_its_players seat.now packet.now }
{
    for player in 0..PLAYER_LIMIT {
        if !is_its_player(seat, packet, player) {
            return false;
        }
    }
    true
}

fn is_its_player(seat: &Seat, packet: &Packet, player: usize) -> bool
    requires { player < PLAYER_LIMIT }
    ensures { result ≡ is_its_player seat.now packet.now player }
{
    let is_unnamed = packet.view.has[player] == 0 && packet.offers[player].end == 0;
    is_unnamed || seat.owners[player] < seat.machines
}

/// Whether a packet's sender says that it has no more words of this machine's players than this machine has.
pub(crate) fn are_no_more(seat: &Seat, has: &[u32; PLAYER_LIMIT], packet: &Packet) -> bool
    ensures { result ≡ are_no_more seat.now has.now packet.now }
{
    for player in 0..PLAYER_LIMIT {
        if !is_no_more(seat, has, packet, player) {
            return false;
        }
    }
    true
}

fn is_no_more(seat: &Seat, has: &[u32; PLAYER_LIMIT], packet: &Packet, player: usize) -> bool
    requires { player < PLAYER_LIMIT }
    ensures { result ≡ is_no_more seat.now has.now packet.now player }
{
    seat.owners[player] != seat.me || packet.view.has[player] <= has[player]
}
