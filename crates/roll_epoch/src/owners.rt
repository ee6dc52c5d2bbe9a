//! Who owns which player in the next epoch.
ghost use Rattle.std.specs.Prelude.{◌≡◌, ◌<◌, ◌≤◌, IfSome, Some, slice_get, filter, not, ◌==◌};
ghost use Rattle.std.specs.List.{list_all, range_with_len};
ghost use Rattle.roll_mesh.specs.Groups.{first_of};
ghost use Rattle.roll_mesh.specs.declared.limits.TheConstants.{PLAYER_LIMIT, MACHINE_LIMIT};
ghost use Rattle.roll_epoch.specs.Successions.{come, free_input, free_seat, given, given_at, given_if, given_to, has_left_before, is_asked_at, is_first, is_free_input, is_free_seat, is_no_loss, kept_owner, kept_owners, owner_with, place_for, stays};

use crate::limits::{FREE, NO_MACHINE};
use roll_mesh::{MACHINE_LIMIT, PLAYER_LIMIT};
use roll_wire::Newcomer;

/// The machine that owns each player, player 0 first.
pub(crate) type Owners = [u8; PLAYER_LIMIT];

/// Whether a player left before the end.
fn has_left_before(end: u32, left: Option<u32>) -> bool
    ensures { result ≡ has_left_before end left }
{
    match left {
        None => false,
        Some(at) => at < end,
    }
}

/// Whether a player is another's than this machine's, or didn't leave before the end.
fn is_no_loss(end: u32, machine: u8, owner: u8, left: Option<u32>) -> bool
    ensures { result ≡ is_no_loss end machine owner left }
{
    owner != machine || !has_left_before(end, left)
}

/// Whether no player of a machine left before the end.
pub(crate) fn stays(
    owners: &Owners,
    left: &[Option<u32>; PLAYER_LIMIT],
    end: u32,
    machine: u8,
) -> bool
    ensures { result ≡ stays owners.now left.now end machine }
{
    for player in 0..PLAYER_LIMIT {
        if !is_no_loss(end, machine, owners[player], left[player]) {
            return false;
        }
    }
    true
}

/// Who owns a player still: it is free if its owner doesn't stay.
fn kept_owner(owners: &Owners, left: &[Option<u32>; PLAYER_LIMIT], end: u32, player: usize) -> u8
    requires { player < PLAYER_LIMIT }
    ensures { result ≡ kept_owner owners.now left.now end player }
{
    let owner = owners[player];
    if owner == NO_MACHINE || stays(owners, left, end, owner) {
        owner
    } else {
        FREE
    }
}

/// Who owns each player still.
pub(crate) fn kept_owners(owners: &Owners, left: &[Option<u32>; PLAYER_LIMIT], end: u32) -> Owners
    ensures { result ≡ kept_owners owners.now left.now end }
{
    let mut kept = [NO_MACHINE; PLAYER_LIMIT];
    for player in 0..PLAYER_LIMIT {
        kept[player] = kept_owner(owners, left, end, player);
    }
    kept
}

/// Whether nobody has a machine's number.
fn is_free_seat(owners: &Owners, machine: u8) -> bool
    ensures { result ≡ is_free_seat owners.now machine }
{
    owners.iter().all(|owner| *owner != machine)
}

/// The lowest number that nobody has.
pub(crate) fn free_seat(owners: &Owners) -> Option<u8>
    ensures { result ≡ free_seat owners.now }
{
    for machine in 0..MACHINE_LIMIT {
        if is_free_seat(owners, machine as u8) {
            return Some(machine as u8);
        }
    }
    None
}

/// The first player of the input that a player is a word of, where each input has so many.
pub(crate) fn first_of(words: u8, player: usize) -> usize
    ensures first { result ≡ first_of words player }
    ensures within { result ≤ player }
{
    let words = usize::from(words);
    if words == 0 {
        0
    } else {
        player / words * words
    }
}

/// Whether a player is an input's first one.
fn is_first(words: u8, player: usize) -> bool
    ensures { result ≡ is_first words player }
{
    first_of(words, player) == player
}

/// Whether a player is the first one of an input that is free.
fn is_free_input(owners: &Owners, words: u8, player: usize) -> bool
    requires { player < PLAYER_LIMIT }
    ensures { result ≡ is_free_input words owners.now player }
{
    owners[player] == FREE && is_first(words, player)
}

/// The lowest input that is free, by its first player.
fn free_input(owners: &Owners, words: u8) -> Option<usize>
    ensures first { result ≡ free_input words owners.now }
    ensures inside { IfSome result (λ p. p < PLAYER_LIMIT) }
{
    for player in 0..PLAYER_LIMIT {
        if is_free_input(owners, words, player) {
            return Some(player);
        }
    }
    None
}

/// Which input somebody gets who asks for one, by their first players: that one if it is free, else the lowest that is.
fn place_for(owners: &Owners, words: u8, player: usize) -> Option<usize>
    requires { player < PLAYER_LIMIT }
    ensures place { result ≡ place_for words owners.now player }
    ensures inside { IfSome result (λ p. p < PLAYER_LIMIT) }
{
    if owners[player] == FREE {
        Some(player)
    } else {
        free_input(owners, words)
    }
}

/// Who owns a player once an input was given to a machine: that one, if it is a word of this input. Only what is free is given.
fn owner_with(owners: &Owners, seat: u8, words: u8, place: usize, player: usize) -> u8
    requires { player < PLAYER_LIMIT }
    ensures { result ≡ owner_with seat words owners.now place player }
{
    if owners[player] == FREE && first_of(words, player) == place {
        seat
    } else {
        owners[player]
    }
}

/// The owners then.
fn given_input(owners: &Owners, seat: u8, words: u8, place: usize) -> Owners
    ensures { result ≡ given_at seat words owners.now (Some place) }
{
    let mut others = *owners;
    for player in 0..PLAYER_LIMIT {
        others[player] = owner_with(owners, seat, words, place, player);
    }
    others
}

/// The owners once that input was given to a machine, if there is one.
fn given(owners: &Owners, seat: u8, words: u8, player: usize) -> Owners
    requires { player < PLAYER_LIMIT }
    ensures { result ≡ given seat words owners.now player }
{
    match place_for(owners, words, player) {
        Some(place) => given_input(owners, seat, words, place),
        None => *owners,
    }
}

/// The same, if it asks for one.
fn given_if(is_asked: bool, owners: &Owners, seat: u8, words: u8, player: usize) -> Owners
    requires { player < PLAYER_LIMIT }
    ensures { result ≡ given_if is_asked seat words owners.now player }
{
    if is_asked {
        given(owners, seat, words, player)
    } else {
        *owners
    }
}

/// Whether somebody asks for the input whose first player this is. Of another word of an input nothing counts.
fn is_asked_at(asked: &[bool; PLAYER_LIMIT], words: u8, player: usize) -> bool
    requires { player < PLAYER_LIMIT }
    ensures { result ≡ is_asked_at words asked.now player }
{
    asked[player] && is_first(words, player)
}

/// The owners once a machine was given an input for each that it asks for, the lowest first.
fn given_all(owners: &Owners, seat: u8, words: u8, asked: &[bool; PLAYER_LIMIT]) -> Owners
    ensures { result ≡ given_to seat words asked.now owners.now PLAYER_LIMIT }
{
    let mut all = *owners;
    for player in 0..PLAYER_LIMIT {
        let is_asked = is_asked_at(asked, words, player);
        all = given_if(is_asked, &all, seat, words, player);
    }
    all
}

/// The owners once somebody came, if somebody does and there is a number for it.
pub(crate) fn come(owners: &Owners, words: u8, newcomer: &Option<Newcomer>) -> Owners
    ensures { result ≡ come words newcomer.now owners.now }
{
    let Some(newcomer) = newcomer else {
        return *owners;
    };
    match free_seat(owners) {
        Some(seat) => given_all(owners, seat, words, &newcomer.players),
        None => *owners,
    }
}
