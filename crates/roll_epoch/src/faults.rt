//! Why a mark is void.
ghost use Rattle.std.specs.Prelude.{◌≡◌, is_some};
ghost use Rattle.roll_epoch.specs.Ends.{is_void};
ghost use Rattle.roll_epoch.specs.Faults.{are_short, delay_fault, fault_of, is_short};

use crate::inputs::are_alike;
use crate::limits::{DELAY_MOST, THRESHOLD_MOST};
use crate::marks::are_delays;
use crate::terms::Terms;
use roll_mesh::PLAYER_LIMIT;
use roll_wire::Mark;

/// Why a mark is void.
#[derive(Clone, Copy, Debug, PartialEq, Eq)]
pub enum MarkFault {
    /// Its threshold is too great: over 15, or over what the sessions' profile has.
    Threshold,
    /// It gives a player a delay of more than 8 frames.
    Delay,
    /// It gives a delay to a player whom its giver doesn't own.
    OthersDelay,
    /// By it words of one input have other delays than each other.
    UnlikeDelays,
    /// Somebody is to come by it with a ticket that isn't good.
    Ticket,
}

/// Whether a delay is of 8 frames at most.
fn is_short(delay: Option<u8>) -> bool
    ensures { result ≡ is_short delay }
{
    match delay {
        None => true,
        Some(delay) => delay <= DELAY_MOST,
    }
}

/// Whether all are.
fn are_short(delays: &[Option<u8>; PLAYER_LIMIT]) -> bool
    ensures { result ≡ are_short delays.now }
{
    for player in 0..PLAYER_LIMIT {
        if !is_short(delays[player]) {
            return false;
        }
    }
    true
}

/// Of delays of which one can't be, why not.
fn delay_fault(delays: &[Option<u8>; PLAYER_LIMIT]) -> MarkFault
    ensures { result ≡ delay_fault delays.now }
{
    if are_short(delays) {
        MarkFault::OthersDelay
    } else {
        MarkFault::Delay
    }
}

/// Why a mark of this giver is void, whoever is to come by it: the first of these that holds, in the order of [`MarkFault`].
pub fn fault_of(mark: &Mark, giver: u8, terms: &Terms) -> Option<MarkFault>
    ensures why { result ≡ fault_of mark.now giver terms.now }
    ensures void { is_some result ≡ is_void mark.now giver terms.now }
{
    if mark.threshold > THRESHOLD_MOST {
        Some(MarkFault::Threshold)
    } else if !are_delays(&mark.delays, giver, terms) {
        Some(delay_fault(&mark.delays))
    } else if !are_alike(&mark.delays, terms) {
        Some(MarkFault::UnlikeDelays)
    } else {
        None
    }
}
