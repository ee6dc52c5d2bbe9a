//! A session takes its seat.
ghost use Rattle.std.specs.Prelude.{◌≡◌, ◌+◌, ◌<◌, ◌≤◌, true, length, slice_index, slice_set};
ghost use Rattle.roll_member.specs.Joined.{are_fresh, are_seated, is_fresh_at, is_seated_at, join_refusal, known, AreCounts};
ghost use Rattle.roll_member.specs.Beside.{caught_up, is_near, is_near_at};
ghost use Rattle.roll_mesh.specs.Machines.{owner_of};
ghost use Rattle.roll_mesh.specs.Worlds.{first_machine};
ghost use Rattle.roll_mesh.specs.declared.limits.TheConstants.{INPUT_LIMIT, PLAYER_LIMIT};
ghost use Rattle.roll_session.specs.Headline.{words_of};

use crate::words::known;
use roll_inputs::Source;
use roll_mesh::{Mesh, PLAYER_LIMIT, Seat};
use roll_session::Networked;
use thiserror::Error;

/// Why a session can't take its seat.
#[derive(Clone, Copy, Debug, PartialEq, Eq, Error)]
pub enum JoinRefusal {
    /// There are fewer than 2 or more than 8 machines, or this machine is none of them; or an input has no words or more than 4, or
    /// several owners, or more words than there are players left.
    #[error("no such seat")]
    InvalidSeat,
    /// The local players aren't those of the seat, or the players aren't those that some machine owns.
    #[error("the players of the session aren't those of the match")]
    Players,
    /// The session has words of another machine's player, or a player has left.
    #[error("the session has heard of others already")]
    Started,
}

/// Whether the player at a place is local if the seat owns it, and there is one if a machine owns it.
fn is_seated_at<S: Networked>(session: &S, seat: &Seat, place: u8) -> bool
    requires { place < PLAYER_LIMIT }
    ensures { result ≡ is_seated_at (S.seen session.now) seat.now place }
{
    let owner = seat.owners[usize::from(place)];
    session.is_local(place + 1) == (owner == seat.me)
        && (place < session.players()) == (owner < seat.machines)
}

/// Whether nothing was heard of the player at a place.
fn is_fresh_at<S: Networked>(session: &S, place: u8) -> bool
    requires { place < PLAYER_LIMIT }
    ensures { result ≡ is_fresh_at (S.seen session.now) place }
{
    let count = session.confirmed(place + 1).unwrap_or(0);
    (session.is_local(place + 1) || count == 0)
        && session.source(place + 1, count) != Some(Source::Gone)
}

fn are_seated<S: Networked>(session: &S, seat: &Seat) -> bool
    ensures { result ≡ are_seated (S.seen session.now) seat.now }
{
    for place in 0..PLAYER_LIMIT as u8 {
        if !is_seated_at(session, seat, place) {
            return false;
        }
    }
    true
}

fn are_fresh<S: Networked>(session: &S) -> bool
    ensures { result ≡ are_fresh (S.seen session.now) }
{
    for place in 0..PLAYER_LIMIT as u8 {
        if !is_fresh_at(session, place) {
            return false;
        }
    }
    true
}

/// Why the session can't take the seat, if it can't.
pub(crate) fn join_refusal<S: Networked>(session: &S, seat: &Seat) -> Option<JoinRefusal>
    ensures { result ≡ join_refusal (S.seen session.now) seat.now }
{
    if !seat.is_seat() {
        return Some(JoinRefusal::InvalidSeat);
    }
    if !are_seated(session, seat) {
        return Some(JoinRefusal::Players);
    }
    if !are_fresh(session) {
        return Some(JoinRefusal::Started);
    }
    None
}

/// Gives the mesh so many words more of an own player as the match may know more.
pub(crate) fn give_own<S: Networked>(session: &S, mesh: &mut Mesh, place: u8)
    requires place { place < PLAYER_LIMIT }
    requires own { owner_of mesh.old.seat place ≡ mesh.old.seat.me }
    requires few { mesh.old.seat.words ≤ INPUT_LIMIT }
    requires more { slice_index mesh.old.machine.has place ≤ known (S.seen session.now)
        mesh.old.seat place }
    ensures { mesh.new ≡ record mesh.old {
      machine = record mesh.old.machine {
        has = slice_set mesh.old.machine.has place (known (S.seen session.now) mesh.old.seat place);
      };
    } }
{
    let count = known(session, mesh.seat(), usize::from(place));
    let has = mesh.has()[usize::from(place)];
    for _ in has..count {
        if mesh.give(place).is_err() {
            unreachable!();
        }
    }
}

/// Gives a mesh that has nothing the words of its own players that the match may know.
pub(crate) fn give_all<S: Networked>(session: &S, mesh: &mut Mesh)
    requires none { mesh.old.machine ≡ first_machine }
    requires few { mesh.old.seat.words ≤ INPUT_LIMIT }
    requires seated { are_seated (S.seen session.now) mesh.old.seat ≡ true }
    requires fresh { are_fresh (S.seen session.now) ≡ true }
    ensures has { mesh.new ≡ record mesh.old {
      machine = record first_machine { has = mesh.new.machine.has };
    } }
    ensures all { length mesh.new.machine.has ≡ PLAYER_LIMIT }
    ensures counts { AreCounts (S.seen session.now) mesh.old.seat mesh.new.machine.has }
{
    for place in 0..PLAYER_LIMIT as u8 {
        if session.is_local(place + 1) {
            give_own(session, mesh, place);
        }
    }
}

/// Whether a session may be the mesh's, as far as the player at a place tells.
fn is_near_at<S: Networked>(session: &S, mesh: &Mesh, place: u8) -> bool
    requires place { place < PLAYER_LIMIT }
    requires few { mesh.now.seat.words ≤ INPUT_LIMIT }
    ensures { result ≡ is_near_at (S.seen session.now) mesh.now place }
{
    let seat = mesh.seat();
    let own = seat.owners[usize::from(place)] == seat.me;
    let known = known(session, seat, usize::from(place));
    let count = session.confirmed(place + 1).unwrap_or(0);
    let has = mesh.has()[usize::from(place)];
    is_seated_at(session, seat, place)
        && (has <= known
            && ((own || has == known)
                && (session.source(place + 1, count) != Some(Source::Gone)
                    || mesh.left(place).is_some())))
}

/// Whether a session may be the mesh's.
pub(crate) fn is_near<S: Networked>(session: &S, mesh: &Mesh) -> bool
    requires { mesh.now.seat.words ≤ INPUT_LIMIT }
    ensures { result ≡ is_near (S.seen session.now) mesh.now }
{
    for place in 0..PLAYER_LIMIT as u8 {
        if !is_near_at(session, mesh, place) {
            return false;
        }
    }
    true
}

/// The mesh learns of the words that the session has of its own players.
pub(crate) fn catch_up<S: Networked>(session: &S, mesh: &mut Mesh)
    requires few { mesh.old.seat.words ≤ INPUT_LIMIT }
    requires near { is_near (S.seen session.now) mesh.old ≡ true }
    requires sized { length mesh.old.machine.has ≡ PLAYER_LIMIT }
    ensures { mesh.new ≡ caught_up (S.seen session.now) mesh.old }
{
    for place in 0..PLAYER_LIMIT as u8 {
        if session.is_local(place + 1) {
            give_own(session, mesh, place);
        }
    }
}
