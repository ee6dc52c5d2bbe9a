//! Which rows of an epoch are known.
ghost use Rattle.std.specs.Prelude.{◌≡◌, ◌<◌};
ghost use Rattle.roll_mesh.specs.declared.limits.TheConstants.{PLAYER_LIMIT};
ghost use Rattle.roll_chain.specs.Rows.{counted_at, counted_marks, is_nobody, left_in, lefts, rows_at, rows_known, rows_until};

use roll_mesh::{Mesh, PLAYER_LIMIT};
use roll_peer::Peer;
use roll_wire::Marked;

/// No row is missing as far as a player goes.
const ALL: u32 = u32::MAX;

/// Whether there is no such player in the match.
fn is_nobody(mesh: &Mesh, player: usize) -> bool
    requires { player < PLAYER_LIMIT }
    ensures { result ≡ is_nobody mesh.now player }
{
    let seat = mesh.seat();
    seat.owners[player] >= seat.machines
}

/// At how many words a player has left, if it is in the match.
fn left_in(mesh: &Mesh, player: usize) -> Option<u32>
    requires { player < PLAYER_LIMIT }
    ensures { result ≡ left_in mesh.now player }
{
    if is_nobody(mesh, player) {
        None
    } else {
        mesh.left(player as u8)
    }
}

/// At how many words each player has left, player 0 first.
pub(crate) fn lefts(mesh: &Mesh) -> [Option<u32>; PLAYER_LIMIT]
    ensures { result ≡ lefts mesh.now }
{
    let mut lefts = [None; PLAYER_LIMIT];
    for player in 0..PLAYER_LIMIT {
        lefts[player] = left_in(mesh, player);
    }
    lefts
}

/// How many rows are known as far as a player goes: all, if it has left, or isn't in the match.
fn rows_at(mesh: &Mesh, player: usize) -> u32
    requires { player < PLAYER_LIMIT }
    ensures { result ≡ rows_at mesh.now player }
{
    if is_nobody(mesh, player) || left_in(mesh, player).is_some() {
        ALL
    } else {
        mesh.has()[player]
    }
}

/// How many rows are known: as many as each player who hasn't left has words.
#[tactic(auto, using(crate::proofs::Untils::rows_none, crate::proofs::Untils::rows_next))]
pub(crate) fn rows_known(mesh: &Mesh) -> u32
    ensures { result ≡ rows_known mesh.now }
{
    let mut rows = ALL;
    for player in 0..PLAYER_LIMIT {
        rows = rows.min(rows_at(mesh, player));
    }
    rows
}

/// Of each player of the match the mark that is known, unless it is void.
pub(crate) fn counted_marks(peer: &Peer) -> [Option<Marked>; PLAYER_LIMIT]
    ensures { result ≡ counted_marks peer.now }
{
    let mut marks = [None; PLAYER_LIMIT];
    for player in 0..PLAYER_LIMIT {
        marks[player] = counted_at(peer, player);
    }
    marks
}

fn counted_at(peer: &Peer, player: usize) -> Option<Marked>
    requires { player < PLAYER_LIMIT }
    ensures { result ≡ counted_at peer.now player }
{
    if is_nobody(peer.mesh(), player) || peer.voids()[player] {
        None
    } else {
        peer.marks()[player]
    }
}
